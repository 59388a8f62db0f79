// Reading the file from standard input, and writing its sheet to standard output.
ghost use Rattle.std.specs.Prelude.{◌≤◌, length};
ghost use Rattle.sheet_command.specs.Command.{page_bytes};

use crate::sheet::SheetAreas;
use charts::sheet::PAGE_BYTES;
use hash_parts::error::SegmentCacheBuildError;
use std::io;
use std::io::Read;

// Prints the sheet of the file that the reader gives. A read that fails is taken for the end: what was cut
// off a file is then missed by the load.
pub fn run<R: Read>(reader: &mut R, rt: &impl Print) -> io::Result<()> {
    let mut areas = SheetAreas::cleared();
    let size = show::input::read_full(reader, &mut areas.file);
    let pages = areas.print_input(size);
    show_answer(rt, pages, &areas.page)
}

// Writes the pages, or the line of a refusal.
fn show_answer(
    rt: &impl Print,
    answer: Result<usize, SegmentCacheBuildError>,
    page: &[u8],
) -> io::Result<()>
    requires { page_bytes answer ≤ length page.now }
{
    match answer {
        Ok(pages) => rt.write_all(&page[..pages * PAGE_BYTES]),
        Err(refusal) => println!(rt; "sheet {}", refusal.number()),
    }
}
