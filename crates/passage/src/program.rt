// Reading the input in blocks, answering its lines, and writing the output in blocks.
ghost use Rattle.std.specs.Prelude.{◌≡◌};

use crate::answer::answer_line;
use crate::areas::{Areas, KeyAndValue};
use crate::output::Output;
use crate::source::Source;
use crate::stage::{BAD, Stage};
use passage_lines::input::NextLine;
use std::io::{Read, Write};

// What goes on from line to line.
#[derive(Drop)]
struct Session {
    stage: Stage,
    areas: Areas,
    bytes: KeyAndValue,
    output: Output,
}

impl Session {
    fn new() -> Session {
        Session {
            stage: Stage::Fresh,
            areas: Areas::new(),
            bytes: KeyAndValue::new(),
            output: Output::new(),
        }
    }

    fn answer<W: Write>(&mut self, writer: &mut W, line: &[u8]) {
        let answer = answer_line(&mut self.stage, line, &mut self.bytes, &mut self.areas);
        self.output.put(writer, answer, &self.areas.arena);
    }
}

// Answers every line that the reader gives on the writer. What one line does is fixed by answer_line;
// that the loop reads all lines and writes all answers is run, not proved.
pub fn run<R: Read, W: Write>(reader: &mut R, writer: &mut W) {
    let mut source = Source::new();
    let mut session = Session::new();
    for _ in 0..u64::MAX {
        if !take_turn(reader, writer, &mut source, &mut session) {
            return;
        }
    }
}

// Answers what stands next in the input, and tells whether there may be more.
fn take_turn<R: Read, W: Write>(
    reader: &mut R,
    writer: &mut W,
    source: &mut Source,
    session: &mut Session,
) -> bool {
    match source.next_line() {
        NextLine::Line { from, to } => session.answer(writer, source.part(from, to)),
        NextLine::TooLong => session.output.put(writer, BAD, &[]),
        NextLine::Skipped => {}
        NextLine::More => return next_block(reader, writer, source, session),
    }
    true
}

// Writes what waits and reads more input; where there is none, answers the last line. Where a write or a
// read fails, the input is taken as ended.
fn next_block<R: Read, W: Write>(
    reader: &mut R,
    writer: &mut W,
    source: &mut Source,
    session: &mut Session,
) -> bool
    ensures { session.new.output.waiting ≡ 0 }
{
    if !session.output.write(writer) {
        return false;
    }
    if source.read_more(reader) {
        return true;
    }
    let last = source.last_line();
    if !last.is_empty() {
        session.answer(writer, last);
        session.output.write(writer);
    }
    false
}
