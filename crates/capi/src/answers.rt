// What C is told of a call's answer: a number, and lent words.
ghost use Rattle.std.specs.Prelude.{◌≡◌, None, cond, eqb, length};
ghost use Rattle.std.proofs.Common.{lit<};
ghost use Rattle.capi.specs.Calls.{flag_words, bare_reply, found_words, left_words, number_words, place_told, placed_words, pushed_told, record_words, span_words, told, told_by};

use crate::words::{FromWords, ToWords, copy_words};
use hash_parts::duration::SegmentRemainingTtl;
use hash_parts::error::SegmentCacheBuildError;
use records::record::Span;
use sets::builder::PushedRecord;
use sets::cache::SegmentBaseRecord;

pub const SPAN_WORDS: usize = 3;

pub const RECORD_WORDS: usize = 12;

// The place of a pushed record: slot and location.
pub const PLACE_WORDS: usize = 2;

// 0 and the words of what a call gives; or the refusal's number.
pub fn tell<const N: usize, T: ToWords<N>>(
    answer: Result<T, SegmentCacheBuildError>,
    out: &mut [u64],
) -> u64
    ensures { told result out.new ≡ told_by T.words_of (bare_reply answer) out.old }
{
    match answer {
        Ok(given) => {
            copy_words(out, &given.to_words());
            0
        }
        Err(refusal) => refusal.number() as u64,
    }
}

// The state in lent words, where the words lent for the answer are so many.
// An export is this, its call and what tells the answer, one after another. A function that took the call as a closure would demand
// one that may be called, and what a closure writes to areas that it borrows is lost to the proof of its maker.
pub fn lent_state<const N: usize, S: FromWords>(state: &[u64], out: &[u64]) -> Option<S>
    ensures { result ≡ cond (eqb (length out.now) N) (S.value_in state.now) None }
{
    if out.len() != N {
        return None;
    }
    S::from_words(state)
}

// What a push gives: the words of the state that it leaves, and of its record's place.
pub fn tell_push<const N: usize, S: ToWords<N> + Drop>(
    answer: Result<PushedRecord, SegmentCacheBuildError>,
    state: S,
    words: &mut [u64],
    place: &mut [u64],
) -> u64
    ensures { place_told result words.new place.new ≡ pushed_told S.words_of state answer words.old place.old }
{
    match answer {
        Ok(pushed) => {
            copy_words(words, &state.to_words());
            copy_words(place, &pushed.to_words());
            0
        }
        Err(refusal) => refusal.number() as u64,
    }
}

// What was found, or zeros.
impl<const N: usize, T: ToWords<N>> ToWords<N> for Option<T> {
    ghost words_of = { found_words N T.words_of };

    ghost fits = { T.fits };

    fn to_words(self) -> [u64; N] {
        match self {
            Some(found) => found.to_words(),
            None => [0; N],
        }
    }
}

impl ToWords<1> for usize {
    ghost words_of = { number_words };

    ghost fits = { lit< tt };

    fn to_words(self) -> [u64; 1] {
        [self as u64]
    }
}

// 1 where it holds, else 0.
impl ToWords<1> for bool {
    ghost words_of = { flag_words };

    ghost fits = { lit< tt };

    fn to_words(self) -> [u64; 1] {
        [u64::from(self)]
    }
}

// 1, and place and length in the arena.
impl ToWords<SPAN_WORDS> for Span {
    ghost words_of = { span_words };

    ghost fits = { lit< tt };

    fn to_words(self) -> [u64; SPAN_WORDS] {
        [1, self.at as u64, self.len as u64]
    }
}

// 1, slot, location, bytes before the key, place and length of key and value, what is left of its
// time, and its end.
impl ToWords<RECORD_WORDS> for SegmentBaseRecord {
    ghost words_of = { record_words };

    ghost fits = { lit< tt };

    fn to_words(self) -> [u64; RECORD_WORDS] {
        let [kind, secs, nanos] = left_words(self.remaining_ttl);
        [
            1,
            self.slot as u64,
            self.location as u64,
            self.key_offset as u64,
            self.key.at as u64,
            self.key.len as u64,
            self.value.at as u64,
            self.value.len as u64,
            kind,
            secs,
            nanos,
            self.end as u64,
        ]
    }
}

// 0 where it never lapses; 1 and what is left; 2 where nothing is.
fn left_words(left: Option<SegmentRemainingTtl>) -> [u64; 3]
    ensures { result ≡ left_words left }
{
    match left {
        Some(SegmentRemainingTtl::Never) => [0; 3],
        Some(SegmentRemainingTtl::Finite(time)) => [1, time.secs, u64::from(time.nanos)],
        None => [2, 0, 0],
    }
}

impl ToWords<PLACE_WORDS> for PushedRecord {
    ghost words_of = { placed_words };

    ghost fits = { lit< tt };

    fn to_words(self) -> [u64; PLACE_WORDS] {
        [self.slot as u64, self.location as u64]
    }
}
