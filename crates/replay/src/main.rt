//! Replays the Rust's answers: each line of standard input is a call and what the Rust answered. Counts
//! the calls, and the answers of the port that differ. The port is asked by the calls that it exports.
#![tactic(auto)]

use crate::areas::{Areas, make_call};
use crate::line::Line;
use crate::tally::Tally;
use show::input::read_full;
use std::io::{self, Read};

mod areas;
mod checksum;
mod line;
mod tally;

const LIST_BYTES: usize = 1_048_576;

fn main(rt: HostRuntime) -> io::Result<()> {
    run(&rt, &mut rt.stdin(), &mut [0; LIST_BYTES])
}

/// Apart from main, where a proof has the million elements of the array before it and runs out of stack. A last line with no
/// line feed goes on to the end of the area, whose zeros are no numbers, so that a list that was cut off is not taken for whole.
fn run(rt: &impl Print, input: &mut impl Read, list: &mut [u8; LIST_BYTES]) -> io::Result<()> {
    let length = read_full(input, list);
    let cut_off = length > 0 && !list[..length].ends_with(b"\n");
    replay(rt, &list[..if cut_off { LIST_BYTES } else { length }])
}

/// A line that begins with `#` says how the list was made.
fn replay(rt: &impl Print, list: &[u8]) -> io::Result<()> {
    let mut bytes = [0; 32_768];
    let mut arena = [0; 131_072];
    let mut sets = [Areas::EMPTY; 4];
    let mut tally = Tally::START;
    for (at, text) in list.split(|byte| *byte == b'\n').enumerate() {
        if text.is_empty() || text.starts_with(b"#") {
            continue;
        }
        let line = Line::read(text, &mut bytes);
        let told = make_call(&line, &mut sets, &mut arena);
        tally.count(line.kind);
        tally.compare(rt, at.wrapping_add(1), &line.answer, &told)?;
    }
    tally.show(rt)
}
