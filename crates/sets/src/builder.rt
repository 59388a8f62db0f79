// Building a set: opened for an announced number of records, filled by pushes, finished once. Index,
// filter, segment areas and arena are lent to each call, one by one where it writes to some of them.
ghost use Rattle.std.specs.Prelude.{◌≡◌, ◌+◌, ◌*◌, ◌<◌, ◌≤◌, true, length, if◌then◌else◌};
ghost use Rattle.index.specs.Packed.{packed_index, packed_scratch};
ghost use Rattle.records.specs.Record.{encoded_size};
ghost use Rattle.hash_parts.specs.Outcome.{outcome_of};
ghost use Rattle.sets.specs.Build.{after_finish, after_open, after_push, areas_hold_builder, finish_result, open_result, push_end, push_made, push_result, set_of};

use crate::cache::FrozenSegmentCache;
use crate::questions::{check_open, filter_words_for};
use hash_parts::duration::Duration;
use hash_parts::error::SegmentCacheBuildError;
use hash_parts::hash::hash_tag;
use hash_parts::setting::SegmentCacheConfig;
use index::build::{bucket_count, clear_words};
use index::filter::mark_displaced;
use index::packed::finish_packed_index;
use index::segments::split_record_segments;
use index::view::SegmentAreas;
use index::word::{BUCKET_SLOTS, encode_index_word};
use records::record::append_record;

#[derive(Clone, Copy, Debug, PartialEq, Eq)]
pub struct SegmentCacheBuilder {
    pub config: SegmentCacheConfig,
    pub expected_entries: usize,
    pub inserted_entries: usize,
    pub bucket_count: usize,
    pub filter_words: usize,
    // The first so many bytes of the arena hold the records.
    pub filled: usize,
    pub logical_key_bytes: usize,
    pub logical_value_bytes: usize,
}

// Where a push put its record.
#[derive(Clone, Copy, Debug, PartialEq, Eq)]
pub struct PushedRecord {
    pub slot: usize,
    pub location: usize,
}

// Where a push will put its record, and with which deadline.
#[derive(Clone, Copy, Debug, PartialEq, Eq)]
pub(crate) struct PushPlan {
    pub slot: usize,
    pub expires_at: u16,
}

impl SegmentCacheBuilder {
    // Opens a builder for so many records, and clears the index and filter words that they need.
    #[tactic(auto, using(crate::proofs::Decides::decided_refused, crate::proofs::Asked::open_asked, crate::proofs::Asked::open_left_law, crate::proofs::Counts::counts_records), unfolding(crate::specs::Build::after_open))]
    pub fn try_new(
        config: SegmentCacheConfig,
        entry_count: usize,
        index: &mut [u64],
        filter: &mut [u64],
        areas: SegmentAreas<'_>,
    ) -> Result<SegmentCacheBuilder, SegmentCacheBuildError>
        ensures { open_result result index.new filter.new ≡ after_open config entry_count index.old filter.old areas.entry.starts.now areas.entry.lengths.now areas.entry.arena.now }
    {
        check_open(config, entry_count, index.len(), filter.len(), areas)?;
        let builder = SegmentCacheBuilder {
            config,
            expected_entries: entry_count,
            inserted_entries: 0,
            bucket_count: bucket_count(entry_count, config.target_occupied_slots),
            filter_words: filter_words_for(entry_count, config.negative_filter_bits_per_entry),
            filled: 0,
            logical_key_bytes: 0,
            logical_value_bytes: 0,
        };
        clear_words(index, builder.bucket_count * BUCKET_SLOTS);
        clear_words(filter, builder.filter_words);
        Ok(builder)
    }

    // How many bytes a record of these lengths takes in a set of this setting.
    pub fn encoded_record_bytes(
        config: SegmentCacheConfig,
        key_bytes: usize,
        value_bytes: usize,
    ) -> Result<usize, SegmentCacheBuildError>
        ensures { outcome_of result ≡ encoded_size config.expiry key_bytes value_bytes }
    {
        records::record::encoded_record_bytes(config.expiry, key_bytes, value_bytes)
    }

    // Adds a record whose key is new. A refusal leaves builder and areas as they were.
    #[tactic(auto, using(crate::proofs::Decides::planned_no, crate::proofs::Decides::planned_two, crate::proofs::Decides::decided_refused), unfolding(crate::specs::Build::after_push, crate::specs::BuildPlans::plan_push))]
    pub fn push(
        &mut self,
        hash: u64,
        key: &[u8],
        value: &[u8],
        ttl: Option<Duration>,
        index: &mut [u64],
        filter: &mut [u64],
        arena: &mut [u8],
    ) -> Result<PushedRecord, SegmentCacheBuildError>
        ensures { push_result result self.new index.new filter.new arena.new ≡ after_push self.old hash key.now value.now ttl index.old filter.old arena.old }
    {
        let plan = self.plan_push(hash, key, value.len(), ttl, index, filter.len(), arena)?;
        Ok(self.push_at(plan, hash, key, value, index, filter, arena))
    }

    // Splits the records into segments and brings the index into the set's layout. Where there
    // would be more than 256 segments, only the first 256 starts are written. A refusal leaves the caller's builder open.
    #[tactic(auto, using(crate::proofs::Splitting::finish_stopped, crate::proofs::Splitting::split_refused, crate::proofs::Splitting::split_made, crate::proofs::Asked::finish_asked))]
    pub fn finish(
        self,
        target: usize,
        index: &mut [u64],
        starts: &mut [u64],
        lengths: &mut [u64],
        scratch: &mut [u64],
        arena: &[u8],
    ) -> Result<FrozenSegmentCache, SegmentCacheBuildError>
        ensures { finish_result result self index.new starts.new lengths.new scratch.new ≡ after_finish self target index.old starts.old lengths.old scratch.old arena.now }
    {
        let areas = SegmentAreas {
            starts,
            lengths,
            arena,
        };
        self.check_finish(target, index, areas, scratch.len())?;
        let buckets = self.bucket_count;
        let segments = split_record_segments(index, buckets, self.filled, target, starts, lengths)?;
        pack_index(self.config.packed_bucket_index, index, buckets, scratch);
        Ok(self.into_cache(segments))
    }

    // Writes the record, then its word and its filter mark.
    #[tactic(auto, using(crate::proofs::Appends::appended, crate::proofs::Appends::push_left_law, crate::proofs::Counts::builder_bytes_few))]
    fn push_at(
        &mut self,
        plan: PushPlan,
        hash: u64,
        key: &[u8],
        value: &[u8],
        index: &mut [u64],
        filter: &mut [u64],
        arena: &mut [u8],
    ) -> PushedRecord
        requires held { areas_hold_builder self.old (length index.old) (length arena.old) ≡ true }
        requires announced { self.old.inserted_entries < self.old.expected_entries }
        requires room { push_end self.old (length key.now) (length value.now) ≤ length arena.old }
        requires slot { plan.slot < length index.old }
        ensures { push_result (Ok result) self.new index.new filter.new arena.new ≡ push_made plan.slot plan.expires_at self.old hash key.now value.now index.old filter.old arena.old }
    {
        let PushPlan { slot, expires_at } = plan;
        let location = self.filled;
        let rest = &mut arena[location..];
        let size = append_record(rest, self.config.expiry, key, value, expires_at);
        index[slot] = encode_index_word(hash_tag(hash), location as u64);
        mark_displaced(filter, self.filter_words, hash, slot, self.bucket_count);
        self.inserted_entries += 1;
        self.filled += size;
        self.logical_key_bytes += key.len();
        self.logical_value_bytes += value.len();
        PushedRecord { slot, location }
    }

    // The finished set.
    fn into_cache(self, segments: usize) -> FrozenSegmentCache
        requires { self.logical_key_bytes + self.logical_value_bytes ≤ self.filled }
        ensures { result ≡ set_of self segments }
    {
        FrozenSegmentCache {
            config: self.config,
            entries: self.expected_entries,
            buckets: self.bucket_count,
            filter_words: self.filter_words,
            segments,
            filled: self.filled,
            record_bytes: self.filled,
            logical_key_bytes: self.logical_key_bytes,
            logical_value_bytes: self.logical_value_bytes,
            record_header_bytes: self.filled - self.logical_key_bytes - self.logical_value_bytes,
        }
    }
}

// The packed layout, where the setting asks for it.
pub(crate) fn pack_index(packed: bool, index: &mut [u64], buckets: usize, scratch: &mut [u64])
    ensures index { index.new ≡ (if packed then packed_index buckets index.old scratch.old else index.old) }
    ensures scratch { scratch.new ≡ (if packed then packed_scratch buckets index.old scratch.old else scratch.old) }
{
    if packed {
        finish_packed_index(index, buckets, scratch);
    }
}
