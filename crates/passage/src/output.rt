// The lines of the output that wait to be written.
ghost use Rattle.std.specs.Prelude.{◌≡◌, ◌≤◌};

use crate::answer::put_answer;
use crate::stage::Answer;
use std::io::Write;

// No line of output is longer: a value comes from a line of input, as long as its text there.
const MAX_REPLY_BYTES: usize = 8_200;

const OUTPUT_BYTES: usize = 65_536;

// The first so many bytes of the area wait.
#[derive(Drop)]
pub(crate) struct Output {
    area: [u8; OUTPUT_BYTES],
    waiting: usize,
    ghost inside: { waiting ≤ 65536 },
}

impl Output {
    pub(crate) fn new() -> Output {
        Output {
            area: [0; OUTPUT_BYTES],
            waiting: 0,
        }
    }

    // Puts the line of an answer behind what waits.
    pub(crate) fn put<W: Write>(&mut self, writer: &mut W, answer: Answer, arena: &[u8]) {
        if OUTPUT_BYTES - self.waiting < MAX_REPLY_BYTES {
            self.write(writer);
        }
        self.waiting = put_answer(&mut self.area, self.waiting, answer, arena);
    }

    // Writes what waits, and tells whether it could be written.
    pub(crate) fn write<W: Write>(&mut self, writer: &mut W) -> bool
        ensures { self.new.waiting ≡ 0 }
    {
        let written = writer.write_all(&self.area[..self.waiting]);
        self.waiting = 0;
        written.is_ok()
    }
}
