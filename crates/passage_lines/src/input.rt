// Lines of an input that is read in blocks.
ghost use Rattle.std.specs.Prelude.{◌≡◌, ◌+◌, ◌<◌, ◌≤◌, ◌^◌, length};
ghost use Rattle.passage_lines.specs.Input.{LineInside, kept, kept_unread, next, next_before, next_line};

use crate::bytes::find_byte;
use crate::command::MAX_LINE_BYTES;

// What of a block is unread: the bytes from at to end. Where skipping, they go on with a line that
// was too long.
#[derive(Clone, Copy, Debug, PartialEq, Eq)]
pub struct Input {
    pub at: usize,
    pub end: usize,
    pub skipping: bool,
}

// What stands next in a block.
#[derive(Clone, Copy, Debug, PartialEq, Eq)]
pub enum NextLine {
    // A whole line, without its line feed.
    Line { from: usize, to: usize },
    // The start of a line that is over the limit.
    TooLong,
    // The end of such a line, which counts as nothing.
    Skipped,
    // Less than a line: there may be more input.
    More,
}

impl Input {
    pub const EMPTY: Input = Input {
        at: 0,
        end: 0,
        skipping: false,
    };

    // A line that is over the limit and not whole is dropped, so that at most a line's bytes stay
    // unread where more input is needed.
    #[tactic(auto, using(std::proofs::lemmas::Bool::Decides::nat_tests), unfolding(crate::specs::Input::next_line))]
    pub fn next_line(&mut self, block: &[u8]) -> NextLine
        ensures line_after { next result self.new ≡ next_line block.now self.old }
        ensures line_inside { LineInside (length block.now) result }
        ensures rest_inside { (self.new.at ≤ self.new.end) × (self.new.end ≤ length block.now) }
    {
        let Some(unread) = block.get(self.at..self.end) else {
            *self = Input::EMPTY;
            return NextLine::More;
        };
        match find_byte(unread, b'\n') {
            Some(count) => self.take_line(count),
            None => self.take_rest(),
        }
    }

    // Takes the line that ends with a line feed after so many bytes.
    fn take_line(&mut self, count: usize) -> NextLine
        requires { (self.old.at + count < self.old.end) × (self.old.end < 2 ^ 63) }
        ensures { next result self.new ≡ next_before self.old.at self.old.end self.old.skipping (self.old.at + count) }
    {
        let from = self.at;
        let to = from + count;
        self.at = to + 1;
        if self.skipping {
            self.skipping = false;
            return NextLine::Skipped;
        }
        NextLine::Line { from, to }
    }

    // What is unread has no line feed.
    fn take_rest(&mut self) -> NextLine
        requires { self.old.at ≤ self.old.end }
        ensures { next result self.new ≡ next_before self.old.at self.old.end self.old.skipping self.old.end }
    {
        let count = self.end - self.at;
        if self.skipping {
            self.at = self.end;
            return NextLine::More;
        }
        if count > MAX_LINE_BYTES {
            *self = Input {
                at: self.end,
                end: self.end,
                skipping: true,
            };
            return NextLine::TooLong;
        }
        NextLine::More
    }

    // Moves the unread bytes to the front of the block, so that more input can be read after them.
    #[tactic(auto, using(crate::proofs::Lines::part_length, std::proofs::lemmas::Bool::Decides::nat_tests), unfolding(crate::specs::Input::kept_unread))]
    pub fn keep_unread(&mut self, block: &mut [u8])
        ensures kept_after { kept self.new block.new ≡ kept_unread block.old self.old }
        ensures end_inside { self.new.end ≤ length block.old }
        ensures at_front { self.new.at ≡ 0 }
    {
        if self.end > block.len() || self.at > self.end {
            *self = Input::EMPTY;
            return;
        }
        block.copy_within(self.at..self.end, 0);
        self.end -= self.at;
        self.at = 0;
    }
}
