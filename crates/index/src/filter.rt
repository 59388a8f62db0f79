// The negative filter: three bits in one word for each record that stands two or more buckets past
// its first. Counts come from the state, never from the length of a longer area.
ghost use Rattle.std.specs.Prelude.{◌≡◌, ◌-◌, ◌*◌, ◌^◌, ◌<◌, ◌≤◌};
ghost use Rattle.hash_parts.specs.Duration.{ceil_div};
ghost use Rattle.index.specs.Filter.{filter_word, filter_mask, bit_past, filter_marked, displaced, displaced_marked, filter_has};

use crate::word::BUCKET_SLOTS;
use hash_parts::hash::{mixed_hash, reduce_hash};

const NEGATIVE_FILTER_PREFIX_BUCKETS: usize = 2;

// A word of the filter, and the bits of a hash in it.
#[derive(Clone, Copy, Debug, PartialEq, Eq)]
pub struct FilterLocation {
    pub word: usize,
    pub mask: u64,
}

// The filter of a finished set: an area, and how many of its words are the filter's.
#[derive(Clone, Copy)]
pub struct NegativeFilter<'a> {
    pub words: &'a [u64],
    pub count: usize,
}

// As many words as so many bits to a record need.
pub fn negative_filter_words(records: u32, bits_per_entry: u8) -> usize
    ensures { result ≡ ceil_div (records * bits_per_entry) 64 }
{
    (u64::from(records) * u64::from(bits_per_entry)).div_ceil(64) as usize
}

pub fn negative_filter_location(words: usize, hash: u64) -> FilterLocation
    ensures { (result.word ≡ filter_word words hash) × (result.mask ≡ filter_mask hash) × (result.word ≤ words - 1) }
{
    let mixed = mixed_hash(hash);
    let first = hash % 64;
    let second = bit_past(first, first, (mixed >> 21) % 64);
    let third = bit_past(first, second, bit_past(first, second, (mixed >> 42) % 64));
    let word = reduce_hash(mixed, words);
    FilterLocation {
        word,
        mask: bit(first) | bit(second) | bit(third),
    }
}

// A bit, or the next around where it is one of two others.
#[tactic(auto, unfolding(crate::specs::Filter::bit_past))]
fn bit_past(a: u64, b: u64, bit: u64) -> u64
    requires { bit < 64 }
    ensures { (result ≡ bit_past a b bit) × (result < 64) }
{
    if bit == a || bit == b {
        return (bit + 1) % 64;
    }
    bit
}

fn bit(i: u64) -> u64
    requires { i < 64 }
    ensures { result ≡ 2 ^ i }
{
    1 << i
}

// Marks a hash. Without words, or with more than the area has, nothing is marked. The area is lent to be
// written, so it is no NegativeFilter, which only reads; and what is done where it is shorter is promised too.
pub fn mark_negative_filter(filter: &mut [u64], words: usize, hash: u64)
    ensures { filter.new ≡ filter_marked filter.old words hash }
{
    if words == 0 {
        return;
    }
    if filter.len() < words {
        return;
    }
    let FilterLocation { word, mask } = negative_filter_location(words, hash);
    filter[word] |= mask;
}

// How many buckets past the first a slot's bucket is.
#[tactic(auto, unfolding(crate::specs::Filter::displaced))]
pub fn bucket_displacement(primary: usize, current: usize, buckets: usize) -> usize
    ensures { result ≡ displaced primary current buckets }
{
    if current >= primary {
        return current - primary;
    }
    buckets.saturating_sub(primary) + current
}

// Marks the hash of a record in a slot that is two or more buckets past its first: a lookup has by
// then not met it, and asks.
pub fn mark_displaced(filter: &mut [u64], words: usize, hash: u64, slot: usize, buckets: usize)
    ensures { filter.new ≡ displaced_marked filter.old words hash slot buckets }
{
    let primary = reduce_hash(hash, buckets);
    if bucket_displacement(primary, slot / BUCKET_SLOTS, buckets) < NEGATIVE_FILTER_PREFIX_BUCKETS {
        return;
    }
    mark_negative_filter(filter, words, hash);
}

impl NegativeFilter<'_> {
    // Whether a hash may have been marked. Without words every hash may.
    pub fn may_contain(self, hash: u64) -> bool
        ensures { result ≡ filter_has self.entry.words.now self.entry.count hash }
    {
        if self.count == 0 {
            return true;
        }
        if self.words.len() < self.count {
            return true;
        }
        let FilterLocation { word, mask } = negative_filter_location(self.count, hash);
        self.words[word] & mask == mask
    }
}
