// The lines of the output.
ghost use Rattle.std.specs.Prelude.{◌≡◌, ◌≤◌, length};
ghost use Rattle.records.specs.Area.{over};
ghost use Rattle.texts.specs.Output.{appended, output};
ghost use Rattle.passage_lines.specs.Reply.{line_of, reply_text, value_text, word_text};

use crate::output::{put_decimal, put_hex, put_text};
use hash_parts::error::SegmentCacheBuildError;

// The words of the commands.
#[derive(Clone, Copy, Debug, PartialEq, Eq)]
pub enum Word {
    Open,
    Put,
    Close,
    Get,
}

impl Word {
    fn text(self) -> &'static [u8]
        ensures { result.now ≡ word_text self }
    {
        match self {
            Word::Open => b"open",
            Word::Put => b"put",
            Word::Close => b"close",
            Word::Get => b"get",
        }
    }
}

// Written by put_reply and not by a `Display`: what a `Display` promises holds only where the writing
// succeeds, and nothing says that it does.
#[derive(Clone, Copy, Debug, PartialEq, Eq)]
pub enum Reply {
    // A line of another form, or out of turn.
    Bad,
    // A get without a hit.
    Missing,
    Refused {
        word: Word,
        error: SegmentCacheBuildError,
    },
    Accepted {
        word: Word,
        first: usize,
        second: usize,
    },
}

// The longest reply has 50 bytes: a word of five, the zero, two numbers of twenty digits, a space before
// each, and the line feed.
const REPLY_BYTES: usize = 64;

// Writes the line of a reply from a position on, and gives the position after it, which the next call takes;
// where the line does not fit it writes nothing.
#[tactic(auto, unfolding(texts::specs::Output::appended))]
pub fn put_reply(out: &mut [u8], at: usize, reply: Reply) -> usize
    ensures line_after { output result out.new ≡ appended at (reply_text reply) out.old }
    ensures end_inside { at ≤ length out.old → result ≤ length out.old }
{
    let mut line = [0u8; REPLY_BYTES];
    let end = write_reply(&mut line, reply);
    put_text(out, at, &line[0..end])
}

// By a match, which has the pieces of every line in one place.
#[tactic(auto, using(crate::proofs::Replies::accepted_line, crate::proofs::Replies::accepted_short, crate::proofs::Replies::refused_line, crate::proofs::Replies::refused_short, texts::proofs::Spelling::appended_parts), unfolding(crate::specs::Reply::reply_text))]
fn write_reply(line: &mut [u8], reply: Reply) -> usize
    requires { length line.old ≡ 64 }
    ensures { (result ≡ length (reply_text reply)) × (result ≤ 64) × (line.new ≡ over (reply_text reply) line.old) }
{
    match reply {
        Reply::Bad => put_text(line, 0, b"bad\n"),
        Reply::Missing => put_text(line, 0, b"get none\n"),
        Reply::Refused { word, error } => write_line(line, word, &[error.number() as usize]),
        Reply::Accepted {
            word,
            first,
            second,
        } => write_line(line, word, &[0, first, second]),
    }
}

// Writes a line of a word and numbers, and gives its length.
fn write_line(line: &mut [u8], word: Word, numbers: &[usize]) -> usize
    requires { length (line_of word numbers.now) ≤ length line.old }
    ensures { (result ≡ length (line_of word numbers.now)) × (line.new ≡ over (line_of word numbers.now) line.old) }
{
    let mut at = put_text(line, 0, word.text());
    for number in numbers {
        let digits_at = put_text(line, at, b" ");
        at = put_decimal(line, digits_at, *number as u64);
    }
    put_text(line, at, b"\n")
}

// Writes the line of a value that was found, as put_reply does.
#[tactic(auto, using(crate::proofs::Replies::value_length, texts::proofs::Spelling::appended_in, texts::proofs::Spelling::appended_out), unfolding(texts::specs::Output::appended))]
pub fn put_value(out: &mut [u8], at: usize, value: &[u8]) -> usize
    ensures line_after { output result out.new ≡ appended at (value_text value.now) out.old }
    ensures end_inside { at ≤ length out.old → result ≤ length out.old }
{
    let room = out.len().saturating_sub(at);
    if room < 8 || (room - 7) / 2 < value.len() {
        return at;
    }
    at + write_value(&mut out[at..], value)
}

fn write_value(line: &mut [u8], value: &[u8]) -> usize
    requires { length (value_text value.now) ≤ length line.old }
    ensures { (result ≡ length (value_text value.now)) × (line.new ≡ over (value_text value.now) line.old) }
{
    let text_at = put_text(line, 0, b"get 0 ");
    let text_end = put_hex(line, text_at, value);
    put_text(line, text_end, b"\n")
}
