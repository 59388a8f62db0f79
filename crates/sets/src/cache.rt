// A finished set and its answers. The state is plain data that no call changes; marks stand in the
// lent index, which get and take_accessed write to: so it is no part of the areas that are only read. A
// key and its hash stay two arguments, as callers have them.
ghost use Rattle.std.specs.Prelude.{◌≡◌, length};
ghost use Rattle.sets.specs.Answers.{probe_reply, stats_reply, walk_reply};
ghost use Rattle.sets.specs.Questions.{check_number, first_no};
ghost use Rattle.sets.specs.Lookup.{areas_hold_lookup, areas_hold_set, after_get, after_peek, ask_lookup, find_of, get_result, probe_answer, set_fits, stats_answer, after_take, take_result, view_of, walk_answer};

use crate::lookup::{SetRecords, base_record, live_value, mark_live};
use crate::marks::clear_accessed;
use crate::questions::{arena_holds, bytes_fit, counts_fit, segment_areas_hold};
use crate::stats::SegmentCacheStats;
use hash_parts::duration::SegmentRemainingTtl;
use hash_parts::error::SegmentCacheBuildError;
use hash_parts::setting::SegmentCacheConfig;
use index::filter::NegativeFilter;
use index::find::{FinishedIndex, FoundRecord, find_record};
use index::segments::MAX_RECORD_SEGMENTS;
use index::view::{SegmentAreas, SegmentView};
use index::word::BUCKET_SLOTS;
use records::record::Span;

#[derive(Clone, Copy, Debug, PartialEq, Eq)]
pub struct FrozenSegmentCache {
    pub config: SegmentCacheConfig,
    pub entries: usize,
    pub buckets: usize,
    pub filter_words: usize,
    pub segments: usize,
    // The first so many bytes of the arena belong to the set.
    pub filled: usize,
    // The bytes of its segments.
    pub record_bytes: usize,
    pub logical_key_bytes: usize,
    pub logical_value_bytes: usize,
    pub record_header_bytes: usize,
}

// A record as probe and walk tell it. Key and value are parts of the arena; location and end are
// segment × 2^32 + offset.
#[derive(Clone, Copy, Debug, PartialEq, Eq)]
pub struct SegmentBaseRecord {
    pub slot: usize,
    pub location: usize,
    pub key_offset: usize,
    pub key: Span,
    pub value: Span,
    pub end: usize,
    pub remaining_ttl: Option<SegmentRemainingTtl>,
}

impl FrozenSegmentCache {
    // The value of a live record, as a part of the arena, and its mark set.
    #[tactic(auto, using(crate::proofs::Finding::lookup_slot, crate::proofs::Decides::decided_refused), unfolding(crate::specs::Lookup::after_get, crate::specs::Lookup::ask_lookup))]
    pub fn get_at_tick(
        self,
        hash: u64,
        key: &[u8],
        now_tick: u64,
        index: &mut [u64],
        filter: &[u64],
        areas: SegmentAreas<'_>,
    ) -> Result<Option<Span>, SegmentCacheBuildError>
        ensures { get_result result index.new ≡ after_get self hash key.now now_tick index.old filter.now areas.entry.starts.now areas.entry.lengths.now areas.entry.arena.now }
    {
        self.check_lookup(index.len(), filter.len(), areas)?;
        let Some(found) = self.find(hash, key, index, filter, areas) else {
            return Ok(None);
        };
        mark_live(found, now_tick, self.config.packed_bucket_index, index);
        Ok(live_value(found, now_tick))
    }

    // The same with no mark set.
    #[tactic(auto, using(crate::proofs::Decides::decided_refused), unfolding(crate::specs::Lookup::after_peek, crate::specs::Lookup::after_get, crate::specs::Lookup::ask_lookup))]
    pub fn peek_at_tick(
        self,
        hash: u64,
        key: &[u8],
        now_tick: u64,
        index: &[u64],
        filter: &[u64],
        areas: SegmentAreas<'_>,
    ) -> Result<Option<Span>, SegmentCacheBuildError>
        ensures { get_result result index.now ≡ after_peek self hash key.now now_tick index.now filter.now areas.entry.starts.now areas.entry.lengths.now areas.entry.arena.now }
    {
        self.check_lookup(index.len(), filter.len(), areas)?;
        let Some(found) = self.find(hash, key, index, filter, areas) else {
            return Ok(None);
        };
        Ok(live_value(found, now_tick))
    }

    // Clears the mark of a record, lapsed or not, and says whether it was set.
    #[tactic(auto, using(crate::proofs::Finding::lookup_slot, crate::proofs::Decides::decided_refused), unfolding(crate::specs::Lookup::after_take, crate::specs::Lookup::ask_lookup))]
    pub fn take_accessed(
        self,
        hash: u64,
        key: &[u8],
        index: &mut [u64],
        filter: &[u64],
        areas: SegmentAreas<'_>,
    ) -> Result<bool, SegmentCacheBuildError>
        ensures { take_result result index.new ≡ after_take self hash key.now index.old filter.now areas.entry.starts.now areas.entry.lengths.now areas.entry.arena.now }
    {
        self.check_lookup(index.len(), filter.len(), areas)?;
        let Some(found) = self.find(hash, key, index, filter, areas) else {
            return Ok(false);
        };
        Ok(clear_accessed(index, self.config.packed_bucket_index, found.slot))
    }

    // All that is known of a record, lapsed or not. No mark is set.
    #[tactic(auto, using(crate::proofs::Decides::decided_refused), unfolding(crate::specs::Lookup::probe_answer, crate::specs::Lookup::ask_lookup))]
    pub fn probe_hashed_at_tick(
        self,
        hash: u64,
        key: &[u8],
        now_tick: u64,
        index: &[u64],
        filter: &[u64],
        areas: SegmentAreas<'_>,
    ) -> Result<Option<SegmentBaseRecord>, SegmentCacheBuildError>
        ensures { probe_reply result ≡ probe_answer self hash key.now now_tick index.now filter.now areas.entry.starts.now areas.entry.lengths.now areas.entry.arena.now }
    {
        self.check_lookup(index.len(), filter.len(), areas)?;
        let Some(found) = self.find(hash, key, index, filter, areas) else {
            return Ok(None);
        };
        Ok(Some(base_record(self.config, found, now_tick)))
    }

    // A step of the walk over all records: the first from a slot on. The walk goes on from the
    // slot after the one answered. No mark is set.
    #[tactic(auto, using(crate::proofs::Counts::set_index), unfolding(crate::specs::Lookup::walk_answer, crate::specs::Lookup::ask_walk))]
    pub fn next_physical_entry_at_tick(
        self,
        from: usize,
        now_tick: u64,
        index: &[u64],
        areas: SegmentAreas<'_>,
    ) -> Result<Option<SegmentBaseRecord>, SegmentCacheBuildError>
        ensures { walk_reply result ≡ walk_answer self from now_tick index.now areas.entry.starts.now areas.entry.lengths.now areas.entry.arena.now }
    {
        if !self.areas_hold(
            index.len(),
            areas.starts.len(),
            areas.lengths.len(),
            areas.arena.len(),
        ) {
            return Err(SegmentCacheBuildError::InvalidState);
        }
        let found = self.records(index, areas).next_entry(from);
        Ok(found.map(|found| base_record(self.config, found, now_tick)))
    }

    #[tactic(auto, using(crate::proofs::Finding::set_few, crate::proofs::Finding::stats_made), unfolding(crate::specs::Lookup::stats_answer, crate::specs::Lookup::ask_stats))]
    pub fn stats(self) -> Result<SegmentCacheStats, SegmentCacheBuildError>
        ensures { stats_reply result ≡ stats_answer self }
    {
        if !self.fits() {
            return Err(SegmentCacheBuildError::InvalidState);
        }
        Ok(SegmentCacheStats {
            entries: self.entries,
            buckets: self.buckets,
            index_slots: self.buckets * BUCKET_SLOTS,
            index_bytes: self.buckets * 64 + self.filter_words * 8,
            record_bytes: self.record_bytes,
            logical_key_bytes: self.logical_key_bytes,
            logical_value_bytes: self.logical_value_bytes,
            record_header_bytes: self.record_header_bytes,
        })
    }

    // The record of a key.
    fn find(
        self,
        hash: u64,
        key: &[u8],
        index: &[u64],
        filter: &[u64],
        areas: SegmentAreas<'_>,
    ) -> Option<FoundRecord>
        ensures { result ≡ find_of self hash key.now index.now filter.now areas.entry.starts.now areas.entry.lengths.now areas.entry.arena.now }
    {
        let index = self.finished_index(index);
        let filter = NegativeFilter {
            words: filter,
            count: self.filter_words,
        };
        find_record(self.view(), index, filter, areas, key, hash)
    }

    // Its records, of the areas that are lent.
    pub fn records<'a>(self, index: &'a [u64], areas: SegmentAreas<'a>) -> SetRecords<'a>
        ensures view { result.view ≡ view_of self }
        ensures index { (result.index.words.now ≡ index.now) × (result.index.packed ≡ self.config.packed_bucket_index) × (result.index.buckets ≡ self.buckets) }
        ensures areas { (result.areas.starts.now ≡ areas.entry.starts.now) × (result.areas.lengths.now ≡ areas.entry.lengths.now) × (result.areas.arena.now ≡ areas.entry.arena.now) }
    {
        SetRecords {
            view: self.view(),
            index: self.finished_index(index),
            areas,
        }
    }

    // Its index, whose words are lent.
    fn finished_index(self, words: &[u64]) -> FinishedIndex<'_>
        ensures { (result.words.now ≡ words.now) × (result.packed ≡ self.config.packed_bucket_index) × (result.buckets ≡ self.buckets) }
    {
        FinishedIndex {
            words,
            packed: self.config.packed_bucket_index,
            buckets: self.buckets,
        }
    }

    // The one question of a lookup.
    #[tactic(auto, unfolding(crate::specs::Lookup::ask_lookup))]
    fn check_lookup(
        self,
        index_len: usize,
        filter_len: usize,
        areas: SegmentAreas<'_>,
    ) -> Result<(), SegmentCacheBuildError>
        ensures { check_number result ≡ first_no (ask_lookup self index_len filter_len (length areas.entry.starts.now) (length areas.entry.lengths.now) (length areas.entry.arena.now)) }
    {
        if !self.lookup_areas_hold(
            index_len,
            filter_len,
            areas.starts.len(),
            areas.lengths.len(),
            areas.arena.len(),
        ) {
            return Err(SegmentCacheBuildError::InvalidState);
        }
        Ok(())
    }

    // Whether all five areas hold what a lookup reads. Public, and by their lengths, which are all that it asks: slices
    // would ask more of a caller.
    #[tactic(auto, unfolding(crate::specs::Lookup::areas_hold_lookup))]
    pub fn lookup_areas_hold(
        self,
        index_len: usize,
        filter_len: usize,
        starts_len: usize,
        lengths_len: usize,
        arena_len: usize,
    ) -> bool
        ensures { result ≡ areas_hold_lookup self index_len filter_len starts_len lengths_len arena_len }
    {
        self.areas_hold(index_len, starts_len, lengths_len, arena_len)
            && self.filter_words <= filter_len
    }

    // What a reader must know of the set.
    pub fn view(self) -> SegmentView
        ensures { result ≡ view_of self }
    {
        SegmentView {
            expiry: self.config.expiry,
            filled: self.filled,
            segments: self.segments,
        }
    }

    // Whether the state's own numbers fit.
    #[tactic(auto, using(crate::proofs::Counts::counts_records), unfolding(crate::specs::Lookup::set_fits))]
    pub fn fits(self) -> bool
        ensures { result ≡ set_fits self }
    {
        counts_fit(self.config, self.entries, self.buckets, self.filter_words)
            && self.segments >= 1
            && self.segments <= MAX_RECORD_SEGMENTS
            && bytes_fit(self.entries, self.logical_key_bytes)
            && bytes_fit(self.entries, self.logical_value_bytes)
            && bytes_fit(self.entries, self.record_header_bytes)
    }

    // Whether they fit, and index, segment areas and arena hold what they tell, by their lengths.
    #[tactic(auto, unfolding(crate::specs::Lookup::areas_hold_set))]
    pub fn areas_hold(
        self,
        index_len: usize,
        starts_len: usize,
        lengths_len: usize,
        arena_len: usize,
    ) -> bool
        ensures { result ≡ areas_hold_set self index_len starts_len lengths_len arena_len }
    {
        self.fits()
            && self.buckets <= index_len / BUCKET_SLOTS
            && segment_areas_hold(starts_len, lengths_len)
            && arena_holds(self.filled, arena_len)
    }
}
