// The index of a build: how many buckets, clearing the words, and the slot of a new record.
ghost use Rattle.std.specs.Prelude.{◌≡◌, ℕ, ◌+◌, ◌*◌, ◌≤◌, Bool, length, take, drop, unwrap_or};
ghost use Rattle.index.specs.Build.{Answers, SlotAnswer, buckets_for, cleared, next_bucket, build_record, holds_key, looks, searched, build_slot, empty_slot, slot_for};
ghost use Rattle.hash_parts.specs.Outcome.{outcome_of};

use crate::word::{BUCKET_SLOTS, index_location, index_tag};
use hash_parts::error::SegmentCacheBuildError;
use hash_parts::hash::{hash_tag, reduce_hash};
use records::record::{Records, same_bytes, value_slice};

// Buckets for so many records: at least one.
pub fn bucket_count(records: usize, occupied: u8) -> usize
    ensures { result ≡ buckets_for records occupied }
{
    if occupied == 0 {
        return 1;
    }
    records.div_ceil(occupied as usize).max(1)
}

// Clears the first words of an area; one that is shorter is left alone. So the count is no length of a slice: what is
// done where the area is shorter is promised too.
pub fn clear_words(words: &mut [u64], count: usize)
    ensures { words.new ≡ cleared words.old count }
{
    if words.len() < count {
        return;
    }
    words[..count].fill(0);
}

// The slot of a new record: the first empty one of its walk. `DuplicateKey` where a word of its tag
// before it names a record with its key; a record that can't be read is passed over.
// `CapacityOverflow` where no slot is empty, or the area holds fewer than so many buckets.
pub fn find_build_slot(
    index: &[u64],
    buckets: usize,
    records: Records<'_>,
    key: &[u8],
    hash: u64,
) -> Result<usize, SegmentCacheBuildError>
    ensures { outcome_of result ≡ build_slot index.now buckets records.entry.bytes.now records.entry.expiry key.now hash }
{
    let tag = hash_tag(hash);
    let taken = |word| holds_key(word, records, key, tag);
    first_slot(index, buckets, hash, taken)
}

// The slot of a record whose key may stand in the index already.
pub fn find_empty_build_slot(
    index: &[u64],
    buckets: usize,
    hash: u64,
) -> Result<usize, SegmentCacheBuildError>
    ensures { outcome_of result ≡ empty_slot index.now buckets hash }
{
    first_slot(index, buckets, hash, |_| false)
}

// The first empty slot of a hash's walk, where no word before it is taken by the key.
fn first_slot<F: Fn(u64) -> bool>(
    index: &[u64],
    buckets: usize,
    hash: u64,
    taken: F,
) -> Result<usize, SegmentCacheBuildError>
    requires { F.IsAlwaysCallable taken }
    ensures { (test : ℕ → Bool) → Answers (F.post taken) test → result ≡ slot_for test index.now buckets hash }
{
    if index.len() / BUCKET_SLOTS < buckets {
        return Err(SegmentCacheBuildError::CapacityOverflow);
    }
    let mut bucket = reduce_hash(hash, buckets);
    for _ in 0..buckets {
        if let Some(found) = slot_in_bucket(index, bucket, &taken) {
            return found;
        }
        bucket = next_bucket(bucket, buckets);
    }
    Err(SegmentCacheBuildError::CapacityOverflow)
}

// The eight slots of a bucket: the first that is empty or taken, if one is.
fn slot_in_bucket<F: Fn(u64) -> bool>(
    index: &[u64],
    bucket: usize,
    taken: &F,
) -> Option<Result<usize, SegmentCacheBuildError>>
    requires { (8 * bucket + 8 ≤ length index.now) × F.IsAlwaysCallable taken.now }
    ensures { (test : ℕ → Bool) → Answers (F.post taken.now) test → (after : SlotAnswer) → unwrap_or result after ≡ searched (looks test (8 * bucket) (take 8 (drop (8 * bucket) index.now))) after }
{
    // From 0 on, so that the compiler knows how many turns there are.
    for offset in 0..BUCKET_SLOTS {
        let slot = BUCKET_SLOTS * bucket + offset;
        let word = index[slot];
        if word == 0 {
            return Some(Ok(slot));
        }
        if taken(word) {
            return Some(Err(SegmentCacheBuildError::DuplicateKey));
        }
    }
    None
}

// The next bucket, around.
pub fn next_bucket(bucket: usize, buckets: usize) -> usize
    ensures { result ≡ next_bucket bucket buckets }
{
    if bucket >= buckets {
        return 0;
    }
    if bucket + 1 >= buckets {
        return 0;
    }
    bucket + 1
}

// Whether a word has the tag and names a record with the key.
fn holds_key(word: u64, records: Records<'_>, key: &[u8], tag: u64) -> bool
    ensures { result ≡ holds_key (build_record records.entry.expiry records.entry.bytes.now) key.now tag word }
{
    if index_tag(word) != tag {
        return false;
    }
    let stored = index_location(word);
    if stored == 0 {
        return false;
    }
    let Some(record) = records.record_at((stored - 1) as usize) else {
        return false;
    };
    let stored_key = value_slice(records.bytes, record.key);
    same_bytes(stored_key, key)
}
