// Values as lent words: what C hands to a call, and what a call hands back. The traits are the crate's own, since std's
// TryFrom and From can't be given here to types of other crates.
ghost use Rattle.std.specs.Prelude.{◌≡◌, ◌<◌, ◌*◌, ◌^◌, ℕ, List, Option};
ghost use Rattle.capi.specs.Words.{stored};

use hash_parts::error::SegmentCacheBuildError;

pub const SETTING_WORDS: usize = 6;

pub const BUILDER_WORDS: usize = 13;

pub const SET_WORDS: usize = 15;

pub const REBUILD_WORDS: usize = 22;

pub const STATS_WORDS: usize = 8;

// What a call answers to words of another number or form: the number of an invalid state.
pub const MALFORMED: u64 = SegmentCacheBuildError::InvalidState as u64;

// What can be read from lent words: nothing where they are of another number or form.
pub trait FromWords {
    ghost value_in: { List ℕ → Option Self };

    fn from_words(words: &[u64]) -> Option<Self>
        ensures { result ≡ value_in words.now };
}

// What is handed back as so many words.
pub trait ToWords<const N: usize> {
    ghost words_of: { Self → List ℕ };

    fn to_words(self) -> [u64; N]
        ensures { result ≡ words_of self };

    ghost fits: { N * 8 < 2 ^ 63 };
}

// Stores words over the front of lent ones, where they fit. By copy_from_slice an array would be written to the stack
// first, and then copied.
#[tactic(auto, unfolding(records::specs::Area::written))]
pub fn copy_words(out: &mut [u64], words: &[u64])
    ensures { out.new ≡ stored words.now out.old }
{
    if out.len() >= words.len() {
        for (i, word) in words.iter().enumerate() {
            out[i] = *word;
        }
    }
}
