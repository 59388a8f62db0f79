// The input, read in blocks.
ghost use Rattle.std.specs.Prelude.{◌≡◌, ◌≤◌, length};
ghost use Rattle.passage_lines.specs.Input.{LineInside};

use passage_lines::input::{Input, NextLine};
use show::input::read_some;
use std::io::Read;

// A block is longer than a line may be.
const BLOCK_BYTES: usize = 65_536;

// What is unread lies inside the block.
#[derive(Drop)]
pub(crate) struct Source {
    block: [u8; BLOCK_BYTES],
    input: Input,
    ghost inside: { (input.at ≤ input.end) × (input.end ≤ 65536) },
}

impl Source {
    pub(crate) fn new() -> Source {
        Source {
            block: [0; BLOCK_BYTES],
            input: Input::EMPTY,
        }
    }

    pub(crate) fn next_line(&mut self) -> NextLine
        ensures { LineInside (length self.new.block) result }
    {
        self.input.next_line(&self.block)
    }

    // A part of the block.
    pub(crate) fn part(&self, from: usize, to: usize) -> &[u8]
        requires { (from ≤ to) × (to ≤ length self.now.block) }
    {
        &self.block[from..to]
    }

    // Moves what is unread to the front of the block and reads after it; tells whether anything came.
    pub(crate) fn read_more<R: Read>(&mut self, reader: &mut R) -> bool
        ensures { self.new.input.at ≡ 0 }
    {
        self.input.keep_unread(&mut self.block);
        let count = read_some(reader, &mut self.block[self.input.end..]);
        self.input.end += count;
        count > 0
    }

    // Where the input has ended, the bytes of a last line without a line feed.
    pub(crate) fn last_line(&self) -> &[u8] {
        if self.input.skipping {
            return &[];
        }
        self.part(self.input.at, self.input.end)
    }
}
