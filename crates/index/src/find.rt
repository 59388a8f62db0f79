// Finding a record in a finished index, in either layout.
ghost use Rattle.std.specs.Prelude.{◌≡◌, ◌+◌, ◌*◌, ◌<◌, ◌≤◌, false, None, map, length, take, drop, if◌then◌else◌, nat_lt, slice_index, slice_index_or};
ghost use Rattle.hash_parts.specs.ZeroBytes.{marks};
ghost use Rattle.index.specs.Find.{ends_at, find_in, in_bucket, look, looks_from, slot_at, slots_of};
ghost use Rattle.index.specs.FindSteps.{candidates, from_on, passed_over, step_of, tagged};
ghost use Rattle.index.specs.Filter.{filter_has};
ghost use Rattle.index.specs.Packed.{packed_bucket};
ghost use Rattle.index.specs.Slot.{kept_tag, word_slot};
ghost use Rattle.index.specs.View.{record_in};

use crate::build::next_bucket;
use crate::filter::NegativeFilter;
use crate::packed::packed_slot;
use crate::slot::{IndexSlot, word_slot};
use crate::view::{SegmentAreas, SegmentView};
use crate::word::{BUCKET_SLOTS, index_tag};
use hash_parts::hash::{hash_tag, packed_control_tag, packed_secondary_tag, reduce_hash};
use hash_parts::zero_bytes::{
    BYTE_HIGH_BITS, lowest_marked_byte, without_lowest_mark, zero_byte_high_bits,
};
use records::record::{RecordRef, same_bytes, value_slice};

const PACKED_CONTROL_TAG_BITS: u64 = 0x7f7f_7f7f_7f7f_7f7f;

const BYTE_LOW_BITS: u64 = 0x0101_0101_0101_0101;

// The index of a finished set: its words, in which layout they are, and how many buckets it has. That the words are
// enough is no invariant: find_record and slot_at answer for areas of any length, and ask it of their words first.
#[derive(Clone, Copy)]
pub struct FinishedIndex<'a> {
    pub words: &'a [u64],
    pub packed: bool,
    pub buckets: usize,
}

// A record that was found, and the slot that names it.
#[derive(Clone, Copy, Debug, PartialEq, Eq)]
pub struct FoundRecord {
    pub slot: usize,
    pub entry: RecordRef,
}

// What a slot or a bucket says: a hit, the end of the walk with nothing, or on. An enum of its own, since
// `Option<Option<FoundRecord>>` would name none of the three.
#[derive(Clone, Copy)]
pub(crate) enum FindStep {
    Hit(FoundRecord),
    Stop,
    Next,
}

// The first record of a key on the walk of its hash. The filter is asked once, after the second
// bucket. Its hash is handed on by the first: what the filter computes of it would else be computed
// ahead of the walk, for every lookup.
pub fn find_record(
    view: SegmentView,
    index: FinishedIndex<'_>,
    filter: NegativeFilter<'_>,
    areas: SegmentAreas<'_>,
    key: &[u8],
    hash: u64,
) -> Option<FoundRecord>
    ensures { result ≡ find_in view index.entry.packed index.entry.words.now index.entry.buckets filter.entry.words.now filter.entry.count areas.entry.starts.now areas.entry.lengths.now areas.entry.arena.now key.now hash }
{
    if index.words.len() / BUCKET_SLOTS < index.buckets {
        return None;
    }
    let tag = hash_tag(hash);
    let mut bucket = reduce_hash(hash, index.buckets);
    let mut filter_hash: u64 = 0;
    for probe in 0..index.buckets {
        match find_in_bucket(view, index, areas, key, tag, bucket) {
            FindStep::Hit(found) => return Some(found),
            FindStep::Stop => return None,
            FindStep::Next => {}
        }
        if ends_at_filter(probe, filter, filter_hash) {
            return None;
        }
        filter_hash = hash;
        bucket = next_bucket(bucket, index.buckets);
    }
    None
}

// Whether the filter ends a walk after so many buckets and one: it is asked after the second.
fn ends_at_filter(probe: usize, filter: NegativeFilter<'_>, hash: u64) -> bool
    ensures { result ≡ ends_at probe (filter_has filter.entry.words.now filter.entry.count hash) }
{
    if probe != 1 {
        return false;
    }
    !filter.may_contain(hash)
}

// The candidates of a bucket, the lowest first; then an empty slot ends a walk of the packed layout.
// Both layouts share the loop: so there is one place where a record is read, and it is inlined.
fn find_in_bucket(
    view: SegmentView,
    index: FinishedIndex<'_>,
    areas: SegmentAreas<'_>,
    key: &[u8],
    tag: u64,
    bucket: usize,
) -> FindStep
    requires { (bucket < index.buckets) × (8 * index.buckets ≤ length index.words.now) }
    ensures { result ≡ in_bucket index.entry.packed (looks_from (record_in view areas.entry.arena.now areas.entry.starts.now areas.entry.lengths.now) areas.entry.arena.now key.now (kept_tag index.entry.packed tag) (8 * bucket) (slots_of index.entry.packed index.entry.buckets index.entry.words.now bucket)) }
{
    let kept = kept_tag(index.packed, tag);
    let mut candidates = index.candidate_marks(bucket, tag);
    while candidates != 0 {
        let offset = lowest_marked_byte(candidates);
        let slot = bucket * BUCKET_SLOTS + offset;
        let content = index.bucket_slot(bucket, offset);
        let step = find_in_slot(view, areas, key, kept, slot, content);
        let FindStep::Next = step else {
            return step;
        };
        candidates = without_lowest_mark(candidates);
    }
    if index.has_empty(bucket) {
        return FindStep::Stop;
    }
    FindStep::Next
}

// One slot: an empty one, or one whose record can't be read, ends the walk.
fn find_in_slot(
    view: SegmentView,
    areas: SegmentAreas<'_>,
    key: &[u8],
    tag: u64,
    slot: usize,
    content: IndexSlot,
) -> FindStep
    ensures { result ≡ step_of (look (record_in view areas.entry.arena.now areas.entry.starts.now areas.entry.lengths.now) areas.entry.arena.now key.now tag slot content) }
{
    let Some((kept, stored)) = content else {
        return FindStep::Stop;
    };
    if kept != tag {
        return FindStep::Next;
    }
    let Some(entry) = view.record_at_location(areas, stored) else {
        return FindStep::Stop;
    };
    if same_bytes(value_slice(areas.arena, entry.key), key) {
        return FindStep::Hit(FoundRecord { slot, entry });
    }
    FindStep::Next
}

// What a layout keeps of a tag.
fn kept_tag(packed: bool, tag: u64) -> u64
    ensures { result ≡ kept_tag packed tag }
{
    if packed {
        return u64::from(packed_control_tag(tag)) + 128 * u64::from(packed_secondary_tag(tag));
    }
    tag
}

// The bytes of a control word that have a tag.
fn tagged_bytes(control: u64, tag: u64) -> u64
    requires { tag < 128 }
    ensures { result ≡ marks (tagged tag control) }
{
    let tags = control & PACKED_CONTROL_TAG_BITS;
    let repeated_tag = tag * BYTE_LOW_BITS;
    zero_byte_high_bits(tags ^ repeated_tag)
}

// The slots of a bucket of words before the first that is empty or has the tag.
fn passed_over(bucket: &[u64], tag: u64) -> usize
    requires { length bucket.now ≡ 8 }
    ensures { (result ≡ passed_over tag (map word_slot bucket.now)) × (result ≤ 8) }
{
    bucket
        .iter()
        .position(|word| *word == 0 || index_tag(*word) == tag)
        .unwrap_or(BUCKET_SLOTS)
}

// Marks on all slots from one on.
fn marks_from(slot: usize) -> u64
    requires { slot ≤ 8 }
    ensures { result ≡ marks (from_on slot 8) }
{
    if slot == BUCKET_SLOTS {
        return 0;
    }
    BYTE_HIGH_BITS << (slot * 8)
}

impl FinishedIndex<'_> {
    // A slot, in either layout; empty past the buckets, and where the area holds fewer.
    pub fn slot_at(self, slot: usize) -> IndexSlot
        ensures { result ≡ slot_at self.entry.packed self.entry.buckets self.entry.words.now slot }
    {
        if self.words.len() / BUCKET_SLOTS < self.buckets {
            return None;
        }
        if slot / BUCKET_SLOTS >= self.buckets {
            return None;
        }
        self.bucket_slot(slot / BUCKET_SLOTS, slot % BUCKET_SLOTS)
    }

    // The slots of a bucket that are looked at, as marks on the bytes of a word.
    fn candidate_marks(self, bucket: usize, tag: u64) -> u64
        requires { 8 * bucket + 8 ≤ length self.words.now }
        ensures { result ≡ marks (candidates self.entry.packed tag self.entry.words.now bucket) }
    {
        if self.packed {
            return tagged_bytes(self.words[bucket], u64::from(packed_control_tag(tag)));
        }
        let begin = BUCKET_SLOTS * bucket;
        marks_from(passed_over(&self.words[begin..begin + BUCKET_SLOTS], tag))
    }

    // Whether a bucket of the packed layout has an empty slot.
    fn has_empty(self, bucket: usize) -> bool
        requires { bucket < length self.words.now }
        ensures { result ≡ (if self.entry.packed then nat_lt 0 (marks (tagged 0 (slice_index self.entry.words.now bucket))) else false) }
    {
        if self.packed {
            return tagged_bytes(self.words[bucket], 0) > 0;
        }
        false
    }

    // A slot of a bucket, in either layout.
    fn bucket_slot(self, bucket: usize, offset: usize) -> IndexSlot
        requires { (bucket < self.buckets) × (8 * self.buckets ≤ length self.words.now) × (offset < 8) }
        ensures { result ≡ slice_index_or (slots_of self.entry.packed self.entry.buckets self.entry.words.now bucket) offset None }
    {
        if self.packed {
            return self.packed_slot_at(bucket, offset);
        }
        word_slot(self.words[bucket * BUCKET_SLOTS + offset])
    }

    // A slot of the packed layout. The reference of slot 7 lies in the last word, whose front is slot
    // 6's end.
    fn packed_slot_at(self, bucket: usize, offset: usize) -> IndexSlot
        requires { (bucket < self.buckets) × (8 * self.buckets ≤ length self.words.now) × (offset < 8) }
        ensures { result ≡ slice_index_or (packed_bucket self.entry.buckets self.entry.words.now bucket) offset None }
    {
        let control = self.words[bucket];
        let at = self.buckets + 7 * bucket + offset;
        let before = self.words[at - 1];
        if offset == 7 {
            return packed_slot(control, before, 0, offset);
        }
        packed_slot(control, before, self.words[at], offset)
    }
}
