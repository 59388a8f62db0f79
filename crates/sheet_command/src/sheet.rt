// The areas of a sheet, and the sheet of the set that a file holds.
ghost use Rattle.std.specs.Prelude.{◌≡◌, ◌≤◌, length};
ghost use Rattle.charts.specs.Sheet.{sheet_result};
ghost use Rattle.sheet_command.specs.Command.{page_bytes, sheet_of_input};

use charts::sheet::print_sheet;
use files::load::load_file;
use hash_parts::error::SegmentCacheBuildError;
use index::segments::MAX_RECORD_SEGMENTS;
use index::view::SegmentAreas;

// An input that fills this area may be longer than it, and is refused, not cut: a file has at most 262,143 bytes.
const FILE_AREA_BYTES: usize = 262_144;

// As much as a file of that length can ask: each word of index and filter takes eight bytes of it.
const ARENA_BYTES: usize = 262_144;

const INDEX_WORDS: usize = 32_768;

const FILTER_WORDS: usize = 32_768;

// 80 pages: a set of at most 4,000 records is printed, a larger one refused by 10.
const PAGE_AREA_BYTES: usize = 260_000;

// All areas of the program, which takes no memory from a heap. Together they have 1.25 MiB, and stand on the
// stack.
#[derive(Drop)]
pub(crate) struct SheetAreas {
    pub file: [u8; FILE_AREA_BYTES],
    pub index: [u64; INDEX_WORDS],
    pub filter: [u64; FILTER_WORDS],
    pub starts: [u64; MAX_RECORD_SEGMENTS],
    pub lengths: [u64; MAX_RECORD_SEGMENTS],
    pub arena: [u8; ARENA_BYTES],
    pub page: [u8; PAGE_AREA_BYTES],
}

impl SheetAreas {
    pub(crate) fn cleared() -> Self {
        Self {
            file: [0; FILE_AREA_BYTES],
            index: [0; INDEX_WORDS],
            filter: [0; FILTER_WORDS],
            starts: [0; MAX_RECORD_SEGMENTS],
            lengths: [0; MAX_RECORD_SEGMENTS],
            arena: [0; ARENA_BYTES],
            page: [0; PAGE_AREA_BYTES],
        }
    }

    // Loads the input, so many bytes at the front of the file area, and prints its sheet to the front of the
    // page area. An input that fills its area may be longer. Nothing is printed of a file that does not load.
    pub(crate) fn print_input(&mut self, size: usize) -> Result<usize, SegmentCacheBuildError>
        ensures sheet { sheet_result result self.new.page ≡ sheet_of_input size self.old.file self.old.index self.old.filter self.old.starts self.old.lengths self.old.arena self.old.page }
        ensures inside { page_bytes result ≤ length self.old.page }
    {
        if size >= self.file.len() {
            return Err(SegmentCacheBuildError::AreaTooShort);
        }
        let set = load_file(
            &self.file[..size],
            &mut self.index,
            &mut self.filter,
            &mut self.starts,
            &mut self.lengths,
            &mut self.arena,
        )?;
        let areas = SegmentAreas {
            starts: &self.starts,
            lengths: &self.lengths,
            arena: &self.arena,
        };
        print_sheet(set, &self.index, areas, &mut self.page)
    }
}
