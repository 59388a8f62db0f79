// The example's set as a file: its bytes, the set that is loaded of them, and files that are refused.
use crate::areas::{TrialAreas, show_bytes, show_number, show_refusal};
use files::load::{file_needs, load_file};
use files::write::{file_bytes, write_file};
use sets::cache::FrozenSegmentCache;
use std::io;

const FILE_BYTES: usize = 158;

pub(crate) fn run(
    rt: &impl Print,
    set: FrozenSegmentCache,
    areas: &TrialAreas<8, 0, 16>,
) -> io::Result<()> {
    let mut file = [0; FILE_BYTES];
    show_number(
        rt,
        "file bytes",
        file_bytes(set, &areas.segments.starts, &areas.segments.lengths),
    )?;
    write(rt, set, areas, &mut file[1..])?;
    write(rt, set, areas, &mut file)?;
    show_blocks(rt, &file)?;
    show_needs(rt, &file)?;
    load(rt, &file)?;
    refuse(rt, &file)
}

fn write(
    rt: &impl Print,
    set: FrozenSegmentCache,
    areas: &TrialAreas<8, 0, 16>,
    file: &mut [u8],
) -> io::Result<()> {
    let written = write_file(
        set,
        &areas.index,
        &areas.filter,
        areas.segments.areas(),
        file,
    );
    show_number(rt, "written", written)
}

// One line for each of the five blocks: the array's length shows that they lie in it, which bounds in a list
// would not.
fn show_blocks(rt: &impl Print, file: &[u8; FILE_BYTES]) -> io::Result<()> {
    show_bytes(rt, &file[0..50])?;
    show_bytes(rt, &file[50..64])?;
    show_bytes(rt, &file[64..134])?;
    show_bytes(rt, &file[134..140])?;
    show_bytes(rt, &file[140..158])
}

fn show_needs(rt: &impl Print, file: &[u8]) -> io::Result<()> {
    match file_needs(file) {
        Ok(least) => {
            print!(rt; "needs {} {} {}", least.index, least.filter, least.starts)?;
            println!(rt; " {} {}", least.lengths, least.arena)
        }
        Err(refusal) => show_refusal(rt, refusal),
    }
}

// Loads a file into areas of just the right lengths, and asks as the example does.
fn load(rt: &impl Print, file: &[u8]) -> io::Result<()> {
    let mut areas: TrialAreas<8, 0, 12> = TrialAreas::filled(5);
    match load_file(
        file,
        &mut areas.index,
        &mut areas.filter,
        &mut areas.segments.starts,
        &mut areas.segments.lengths,
        &mut areas.segments.arena,
    ) {
        Ok(set) => {
            print!(rt; "loaded: ")?;
            areas.show_index(rt)?;
            areas.ask(rt, set)
        }
        Err(refusal) => show_refusal(rt, refusal),
    }
}

// One byte short; kind 2 changed; the expiry flag changed; the segment's length; more records than the
// index has room for.
fn refuse(rt: &impl Print, file: &[u8; FILE_BYTES]) -> io::Result<()> {
    load(rt, &file[..157])?;
    for (at, byte) in [(54, 7), (6, 2), (56, 13), (22, 8)] {
        let mut changed = *file;
        changed[at] = byte;
        load(rt, &changed)?;
    }
    Ok(())
}
