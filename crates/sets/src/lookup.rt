// What the calls on a finished set make of a record that was found, and the step of the walk.
ghost use Rattle.std.specs.Prelude.{◌≡◌, ◌*◌, ◌<◌, ◌≤◌, length};
ghost use Rattle.index.specs.View.{record_in};
ghost use Rattle.sets.specs.Answers.{get_reply};
ghost use Rattle.sets.specs.Lookup.{base_record, entry_at, live_marked, live_value, next_entry};

use crate::cache::SegmentBaseRecord;
use crate::marks::mark_accessed;
use hash_parts::duration::{lives_at_tick, remaining_ttl};
use hash_parts::setting::SegmentCacheConfig;
use index::find::{FinishedIndex, FoundRecord};
use index::view::{SegmentAreas, SegmentView};
use index::word::BUCKET_SLOTS;
use records::record::{RecordRef, Span};

// The value of a record, where it lives.
#[tactic(auto, unfolding(crate::specs::Lookup::live_value))]
pub(crate) fn live_value(found: FoundRecord, now_tick: u64) -> Option<Span>
    ensures { get_reply (Ok result) ≡ live_value now_tick found }
{
    let entry = found.entry;
    if !lives_at_tick(entry.expires_at, now_tick) {
        return None;
    }
    Some(entry.value)
}

// Sets the mark of a record, where it lives.
#[tactic(auto, unfolding(crate::specs::Lookup::live_marked))]
pub(crate) fn mark_live(found: FoundRecord, now_tick: u64, packed: bool, index: &mut [u64])
    requires { found.slot < length index.old }
    ensures { index.new ≡ live_marked now_tick packed index.old found }
{
    let entry = found.entry;
    if lives_at_tick(entry.expires_at, now_tick) {
        mark_accessed(index, packed, found.slot);
    }
}

// What probe and walk tell of a record.
pub(crate) fn base_record(
    config: SegmentCacheConfig,
    found: FoundRecord,
    now_tick: u64,
) -> SegmentBaseRecord
    ensures { result ≡ base_record config now_tick found }
{
    let entry = found.entry;
    SegmentBaseRecord {
        slot: found.slot,
        location: entry.location,
        key_offset: entry.key_offset,
        key: entry.key,
        value: entry.value,
        end: entry.end,
        remaining_ttl: remaining_ttl(config.expiry, entry.expires_at, now_tick),
    }
}

// The records of a finished set, as the slots of its index name them. Of any areas: so what goes through all slots asks
// whether the words are enough, and no invariant can say it.
#[derive(Clone, Copy)]
pub struct SetRecords<'a> {
    pub view: SegmentView,
    pub index: FinishedIndex<'a>,
    pub areas: SegmentAreas<'a>,
}

impl SetRecords<'_> {
    // The first record from a slot on, with its deadline as it is stored.
    #[tactic(auto, using(crate::proofs::WalkSteps::entry_hit, crate::proofs::WalkSteps::entry_miss, crate::proofs::WalkSteps::entry_none), unfolding(crate::specs::Lookup::next_entry))]
    pub(crate) fn next_entry(self, from: usize) -> Option<FoundRecord>
        requires { 8 * self.index.buckets ≤ length self.index.words.now }
        ensures { result ≡ next_entry (record_in self.entry.view self.entry.areas.arena.now self.entry.areas.starts.now self.entry.areas.lengths.now) self.entry.index.packed self.entry.index.buckets self.entry.index.words.now from }
    {
        for slot in from..self.index.buckets * BUCKET_SLOTS {
            if let Some(entry) = self.entry_at(slot) {
                return Some(FoundRecord { slot, entry });
            }
        }
        None
    }

    // The record that a slot names. In place at each walk, where a call would take longer than an empty slot.
    #[inline(always)]
    #[tactic(auto, unfolding(crate::specs::Lookup::entry_at))]
    pub fn entry_at(self, slot: usize) -> Option<RecordRef>
        ensures { result ≡ entry_at (record_in self.entry.view self.entry.areas.arena.now self.entry.areas.starts.now self.entry.areas.lengths.now) self.entry.index.packed self.entry.index.buckets self.entry.index.words.now slot }
    {
        let (_, stored) = self.index.slot_at(slot)?;
        self.view.record_at_location(self.areas, stored)
    }
}
