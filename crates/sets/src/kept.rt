// Which segments of its source a rebuild keeps. The flags are lent at rebuild open alone, so the
// state remembers them: a bit for each of 256 segments.
ghost use Rattle.std.specs.Prelude.{◌≡◌, ◌<◌, ◌≤◌, false, length, take, slice_index, slice_index_or};
ghost use mathlib.Core.List.{flat_map};
ghost use Rattle.records.specs.Area.{over, part};
ghost use Rattle.index.specs.Segments.{most_segments};
ghost use Rattle.sets.specs.Kept.{bits_of, chosen, count_true, flag_word, is_kept, kept_count, kept_of, kept_words, new_number, retained};

const WORD_BITS: usize = 64;

const WORDS: usize = 4;

// Bit g % 64 of word g / 64 says whether segment g is kept. Not an array: in clauses that is a list of any
// length, and each law of a rebuild would have to ask for four.
#[derive(Clone, Copy, Debug, PartialEq, Eq)]
pub struct KeptSegments {
    pub w0: u64,
    pub w1: u64,
    pub w2: u64,
    pub w3: u64,
}

impl KeptSegments {
    // A flag of 0 drops its segment.
    pub(crate) fn from_flags(flags: &[u8]) -> Self
        ensures { result ≡ kept_of flags.now }
    {
        KeptSegments {
            w0: flag_word(flags, 0),
            w1: flag_word(flags, WORD_BITS),
            w2: flag_word(flags, 2 * WORD_BITS),
            w3: flag_word(flags, 3 * WORD_BITS),
        }
    }

    // The word with the bits of the segments from 64 * at on; 0 where there is none.
    fn word(self, at: usize) -> u64
        ensures { result ≡ slice_index (kept_words self) at }
    {
        match at {
            0 => self.w0,
            1 => self.w1,
            2 => self.w2,
            3 => self.w3,
            _ => 0,
        }
    }

    // Whether a segment is kept.
    #[tactic(auto, using(crate::proofs::KeptWords::is_kept_bit))]
    pub(crate) fn is_kept(self, segment: usize) -> bool
        ensures { result ≡ is_kept self segment }
    {
        bit_set(self.word(segment / WORD_BITS), segment % WORD_BITS)
    }

    // How many of the segments are kept that have their bits in the first so many words.
    fn kept_in_words(self, count: usize) -> usize
        requires { count ≤ 4 }
        ensures { result ≡ count_true (flat_map (bits_of 64) (take count (kept_words self))) }
    {
        let mut kept = 0;
        for at in 0..count {
            kept += self.word(at).count_ones() as usize;
        }
        kept
    }

    // How many segments are kept.
    #[tactic(auto, using(crate::proofs::KeptWords::retained_words))]
    pub(crate) fn retained(self) -> usize
        ensures { result ≡ retained self }
    {
        self.kept_in_words(WORDS)
    }

    // The number of a kept segment in the rebuilt set.
    #[tactic(auto, using(crate::proofs::KeptWords::new_number_sum, crate::proofs::KeptWords::new_number_256))]
    pub(crate) fn new_number(self, segment: usize) -> usize
        requires { segment < most_segments }
        ensures { result ≡ new_number self segment }
    {
        let at = segment / WORD_BITS;
        self.kept_in_words(at) + set_bits(self.word(at), segment % WORD_BITS)
    }
}

// Whether a bit of a word is set.
#[tactic(auto, using(crate::proofs::KeptWords::bit_at))]
fn bit_set(word: u64, at: usize) -> bool
    requires { at ≤ 63 }
    ensures { result ≡ slice_index_or (bits_of 64 word) at false }
{
    (word >> at) % 2 == 1
}

// The set bits among the lowest bits of a word, so many.
fn set_bits(word: u64, count: usize) -> usize
    requires { count ≤ 63 }
    ensures { result ≡ count_true (bits_of count word) }
{
    (word % (1u64 << count)).count_ones() as usize
}

// The word of 64 flags from one on; those past the last count as 0.
fn flag_word(flags: &[u8], from: usize) -> u64
    requires { from ≤ 192 }
    ensures { result ≡ flag_word (part from 64 flags.now) }
{
    let mut word = 0;
    for at in (0..WORD_BITS).rev() {
        word = word * 2 + flag_bit(flags, from + at);
    }
    word
}

#[tactic(auto, using(crate::proofs::KeptWords::flag_out, crate::proofs::KeptWords::flag_dropped, crate::proofs::KeptWords::flag_kept))]
fn flag_bit(flags: &[u8], at: usize) -> u64
    ensures { result ≡ flag_word (part at 1 flags.now) }
{
    match flags.get(at) {
        Some(&flag) if flag != 0 => 1,
        _ => 0,
    }
}

// How many flags keep their segment.
#[tactic(auto, using(crate::proofs::KeptWords::kept_count_by))]
pub(crate) fn kept_count(flags: &[u8]) -> usize
    ensures { result ≡ kept_count flags.now }
{
    flags.iter().filter(|&&flag| flag != 0).count()
}

// Writes the words whose flag keeps them to the front of an area, in order. Their place is counted: only some flags
// take one, and nothing is known of words that a zip lends to be written.
pub(crate) fn copy_kept(flags: &[u8], words: &[u64], area: &mut [u64])
    requires { (length flags.now ≤ length words.now) × (kept_count flags.now ≤ length area.old) }
    ensures { area.new ≡ over (chosen flags.now words.now) area.old }
{
    let mut kept = 0;
    for (&flag, &word) in flags.iter().zip(words) {
        if flag != 0 {
            area[kept] = word;
            kept += 1;
        }
    }
}
