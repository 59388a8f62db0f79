//! A line of the list: the name of a call, key and value in hexadecimal (`-` for no bytes), numbers in
//! decimal, `=`, and the Rust's answer in numbers as well. It is read as bytes, which need not be text.
ghost use Rattle.std.specs.Prelude.{◌≤◌, length};

use capi::answers::RECORD_WORDS;
use show::input::cut;

/// The calls, in the order in which they are counted.
#[derive(Clone, Copy)]
pub(crate) enum Kind {
    Open,
    Push,
    Finish,
    Get,
    Peek,
    Take,
    Probe,
    Walk,
    Stats,
    RebuildOpen,
    PushReused,
    PushCopied,
    RebuildFinish,
    /// No call: a checksum of all words and record bytes of a set.
    Checksum,
    /// No call either: a line that cannot be read.
    Unreadable,
}

impl Kind {
    pub(crate) const ALL: [(Kind, &'static str); 15] = [
        (Kind::Open, "open"),
        (Kind::Push, "push"),
        (Kind::Finish, "finish"),
        (Kind::Get, "get"),
        (Kind::Peek, "peek"),
        (Kind::Take, "take"),
        (Kind::Probe, "probe"),
        (Kind::Walk, "walk"),
        (Kind::Stats, "stats"),
        (Kind::RebuildOpen, "rebuild_open"),
        (Kind::PushReused, "push_reused"),
        (Kind::PushCopied, "push_copied"),
        (Kind::RebuildFinish, "rebuild_finish"),
        (Kind::Checksum, "checksum"),
        (Kind::Unreadable, "unreadable lines"),
    ];

    fn named(text: &[u8]) -> Option<Kind> {
        for (kind, name) in &Kind::ALL {
            if name.as_bytes() == text {
                return Some(*kind);
            }
        }
        None
    }
}

/// The refusal, or 0, and the words that a call writes, with zeros behind them. A record has the most words.
pub(crate) type Told = [u64; TOLD];

pub(crate) const TOLD: usize = 1 + RECORD_WORDS;

/// Where words stand in a line: the call's from 1 on, a `=` and the answer's behind it. What the line lacks is 0.
type Words = [u64; WORDS];

const WORDS: usize = ANSWER + TOLD;

const ANSWER: usize = 10;

/// 1 where there is one `=`.
const EQUALS: usize = 9;

/// Not 0 where there is anything but numbers.
const STRANGE: usize = 0;

#[derive(Clone, Copy)]
pub(crate) struct Line<'a> {
    pub(crate) kind: Kind,
    pub(crate) key: &'a [u8],
    /// Only pushes have a value.
    pub(crate) value: &'a [u8],
    /// The first is the set's, the others are what the call is given.
    pub(crate) numbers: [u64; 8],
    pub(crate) answer: Told,
}

impl<'a> Line<'a> {
    /// The line of a text; its key and its value are written to the area.
    pub(crate) fn read(text: &[u8], area: &'a mut [u8]) -> Line<'a> {
        let (name, fields) = cut(text, b' ');
        let (key, fields) = cut(fields, b' ');
        let (value, fields) = cut(fields, b' ');
        let words = words(fields);
        let mut numbers = [0; 8];
        let mut answer = [0; TOLD];
        numbers.copy_from_slice(&words[1..EQUALS]);
        answer.copy_from_slice(&words[ANSWER..]);
        let call = call(name, key, value, &words, area);
        let (kind, key, value) = call.unwrap_or((Kind::Unreadable, &[], &[]));
        Line {
            kind,
            key,
            value,
            numbers,
            answer,
        }
    }

    /// A lifetime is two words, or none.
    pub(crate) fn lifetime(&self) -> &[u64]
        ensures { length result.now ≤ 2 }
    {
        let words = &self.numbers[4..6];
        words.get(..self.numbers[3] as usize).unwrap_or(words)
    }
}

/// The call that a line names, its key and its value; none where the line cannot be read.
fn call<'a>(
    name: &[u8],
    key: &[u8],
    value: &[u8],
    words: &Words,
    area: &'a mut [u8],
) -> Option<(Kind, &'a [u8], &'a [u8])> {
    if words[STRANGE] != 0 || words[EQUALS] != 1 {
        return None;
    }
    let (key, area) = bytes(key, 1, area)?;
    // A large value is a part that is repeated, as often as the third number says.
    let (value, _) = bytes(value, words[3] as usize, area)?;
    Some((Kind::named(name)?, key, value))
}

/// The bytes that a field spells so many times in small hexadecimal, at the front of an area, and the rest of the area.
/// Of a field that comes no time nothing is asked.
fn bytes<'a>(field: &[u8], times: usize, area: &'a mut [u8]) -> Option<(&'a [u8], &'a mut [u8])> {
    if field == b"-".as_slice() || times == 0 {
        return Some((&[], area));
    }
    if field.len() % 2 != 0 || field.iter().any(|digit| digit.is_ascii_uppercase()) {
        return None;
    }
    let length = field.len() / 2;
    let (bytes, rest) = area.split_at_mut_checked(length.checked_mul(times)?)?;
    for part in bytes.chunks_exact_mut(length.max(1)) {
        hex::decode_to_slice(field, part).ok()?;
    }
    Some((bytes, rest))
}

/// Each blank begins the next word, and a digit goes to the word before it; a word past 64 bits wraps. More words than there are
/// places go on at the first.
fn words(text: &[u8]) -> Words {
    let mut words: Words = [0; WORDS];
    let mut place = 1;
    for &character in text {
        place = match character {
            b'0'..=b'9' => place,
            b' ' => place % WORDS + 1,
            b'=' => EQUALS,
            _ => STRANGE,
        };
        let word: &mut u64 = &mut words[place % WORDS];
        *word = match character {
            b'0'..=b'9' => word
                .wrapping_mul(10)
                .wrapping_add(u64::from(character - b'0')),
            b' ' => *word,
            _ => 1,
        };
    }
    words
}
