//! The words of a case.
ghost use Rattle.std.specs.Prelude.{◌≤◌, length};

use show::input::cut;

/// The first words are the state's, in the order of the exported calls: six of a setting, 13 of a builder, 15 of
/// a set, 22 of a rebuild. The others, named by `Word`, say what is lent and given to the calls.
#[derive(Clone, Copy)]
pub(crate) struct Case {
    pub(crate) words: [u64; 47],
}

#[derive(Clone, Copy)]
pub(crate) enum Word {
    /// How much of each area is lent.
    Index = 22,
    Filter,
    Starts,
    Lengths,
    Arena,
    Scratch,
    /// What every word of the index holds in finish and in the pushes of a rebuild.
    IndexWord,
    /// Of a rebuild and its source: where every segment starts, and how long it is.
    Start,
    Length,
    /// How many words a lifetime has, and its words.
    Lifetime,
    Seconds,
    Nanoseconds,
    /// What a builder or a rebuild announces: records, and bytes of copies.
    Records,
    CopiedBytes,
    /// How many keep flags are lent, and the segment that they drop.
    Flags,
    Dropped,
    /// How much is lent of a rebuild's own starts and lengths, where those above are its source's.
    NewStarts,
    NewLengths,
    /// The bytes of the arena that are the key and the value to reuse.
    KeyFrom,
    KeyTo,
    ValueFrom,
    ValueTo,
    /// Where the record to reuse stands, and its bytes before the key.
    Location,
    HeaderBytes,
    /// Which calls are made, by number.
    Calls,
}

impl Default for Case {
    fn default() -> Case {
        Case { words: [0; 47] }
    }
}

impl Case {
    /// The case with changes, each the number of a word, `=` and its value, with blanks between them. A number past those of
    /// the words counts on from the first.
    pub(crate) fn changed(mut self, changes: &[u8]) -> Case {
        let mut rest = changes;
        // Each change takes a byte or more.
        for _ in 0..changes.len() {
            if rest.is_empty() {
                break;
            }
            let (place, behind) = cut(rest, b'=');
            let (value, next) = cut(behind, b' ');
            self.words[number(place) as usize % 47] = number(value);
            rest = next;
        }
        self
    }

    pub(crate) fn word(&self, word: Word) -> u64 {
        self.words[word as usize]
    }

    /// So much of an area as a word says; all of it where the word says more.
    pub(crate) fn lent<'a, T>(&self, word: Word, area: &'a [T]) -> &'a [T]
        ensures { length result.now ≤ length area.now }
    {
        area.get(..self.word(word) as usize).unwrap_or(area)
    }

    pub(crate) fn lent_mut<'a, T>(&self, word: Word, area: &'a mut [T]) -> &'a mut [T] {
        let count = self.word(word).min(area.len() as u64);
        &mut area[..count as usize]
    }

    /// The bytes of the arena that two words bound; none where it has no such bytes.
    pub(crate) fn part<'a>(&self, from: Word, to: Word, arena: &'a [u8]) -> &'a [u8] {
        let bytes = arena.get(self.word(from) as usize..self.word(to) as usize);
        bytes.unwrap_or(&[])
    }

    pub(crate) fn index(&self) -> [u64; 8] {
        [self.word(Word::IndexWord); 8]
    }

    pub(crate) fn starts(&self) -> [u64; 256] {
        [self.word(Word::Start); 256]
    }

    pub(crate) fn lengths(&self) -> [u64; 256] {
        [self.word(Word::Length); 256]
    }

    pub(crate) fn lifetime(&self) -> [u64; 2] {
        [self.word(Word::Seconds), self.word(Word::Nanoseconds)]
    }
}

/// The characters 0 to 9 are the numbers 48 to 57. A number past 64 bits wraps.
fn number(digits: &[u8]) -> u64 {
    digits.iter().fold(0u64, |value, digit| {
        value.wrapping_mul(10).wrapping_add(u64::from(digit % 16))
    })
}
