// Rebuilding a set: a new index over segments that are kept where they are and records copied behind
// them. All areas are lent to each call, one by one where it writes to some of them.
ghost use Rattle.std.specs.Prelude.{◌≡◌, ◌+◌, ◌*◌, ◌<◌, ◌≤◌, true, length, slice_set};
ghost use Rattle.hash_parts.specs.Hash.{tag_of};
ghost use Rattle.records.specs.Area.{over};
ghost use Rattle.index.specs.Filter.{displaced_marked};
ghost use Rattle.index.specs.Segments.{most_segments, padded};
ghost use Rattle.index.specs.Word.{segment_part, word_of};
ghost use Rattle.sets.specs.Questions.{most_arena_bytes, most_records};
ghost use Rattle.sets.specs.Kept.{chosen, is_kept, retained};
ghost use Rattle.sets.specs.Rebuild.{after_copied, after_rebuild_finish, after_rebuild_open, after_reused, copied_made, copied_result, copied_size, rebuild_filled, rebuild_fits, rebuild_finish_result, rebuild_open_result, rebuild_opened, reused_made, reused_result};

use crate::builder::{PushPlan, PushedRecord, pack_index};
use crate::cache::FrozenSegmentCache;
use crate::kept::{KeptSegments, copy_kept};
use crate::questions::filter_words_for;
use crate::rebuild_questions::{SEGMENT_BYTES, check_rebuild_open};
use hash_parts::duration::Duration;
use hash_parts::error::SegmentCacheBuildError;
use hash_parts::hash::hash_tag;
use hash_parts::setting::SegmentCacheConfig;
use index::build::{bucket_count, clear_words};
use index::filter::mark_displaced;
use index::segments::MAX_RECORD_SEGMENTS;
use index::view::SegmentAreas;
use index::word::{BUCKET_SLOTS, encode_index_word};
use records::record::append_record;

// Where a record stands in the source, and how many bytes precede its key.
#[derive(Clone, Copy, Debug, PartialEq, Eq)]
pub struct SegmentRecordLocation {
    pub location: usize,
    pub header_bytes: usize,
}

#[derive(Clone, Copy, Debug, PartialEq, Eq)]
pub struct SharedSegmentCacheBuilder {
    pub config: SegmentCacheConfig,
    pub expected_entries: usize,
    pub inserted_entries: usize,
    pub bucket_count: usize,
    pub filter_words: usize,
    pub kept: KeptSegments,
    // The source's filled bytes; copied records follow them.
    pub source_filled: usize,
    pub copied_bytes: usize,
    pub logical_key_bytes: usize,
    pub logical_value_bytes: usize,
    pub record_header_bytes: usize,
    pub reused_entries: usize,
    pub reused_record_bytes: usize,
    // The base of the copied records' deadlines.
    pub source_now_tick: u64,
}

// The rebuilt set, and what it took.
#[derive(Clone, Copy, Debug, PartialEq, Eq)]
pub struct SharedSegmentCacheBuild {
    pub cache: FrozenSegmentCache,
    pub reused_entries: usize,
    pub reused_record_bytes: usize,
    pub copied_record_bytes: usize,
    pub newly_allocated_bytes: usize,
}

impl SharedSegmentCacheBuilder {
    // Opens a rebuild of a source: clears the index and filter words that so many records need, and
    // numbers the kept segments anew.
    #[tactic(auto, using(crate::proofs::Decides::decided_refused, crate::proofs::RebuildAsked::reopen_asked, crate::proofs::Counts::counts_records, crate::proofs::RebuildSteps::reopen_left_law), unfolding(crate::specs::Rebuild::after_rebuild_open))]
    pub fn try_new(
        source: FrozenSegmentCache,
        source_areas: SegmentAreas<'_>,
        entry_count: usize,
        copied_record_capacity: usize,
        used_source_segments: &[u8],
        source_now_tick: u64,
        index: &mut [u64],
        filter: &mut [u64],
        starts: &mut [u64],
        lengths: &mut [u64],
    ) -> Result<SharedSegmentCacheBuilder, SegmentCacheBuildError>
        ensures { rebuild_open_result result source index.new filter.new starts.new lengths.new
            ≡ after_rebuild_open source source_areas.entry.starts.now source_areas.entry.lengths.now source_areas.entry.arena.now
            entry_count copied_record_capacity used_source_segments.now source_now_tick index.old filter.old starts.old lengths.old }
    {
        check_rebuild_open(
            source,
            source_areas,
            entry_count,
            copied_record_capacity,
            used_source_segments,
            index.len(),
            filter.len(),
            starts.len(),
            lengths.len(),
        )?;
        let builder = opened_rebuild(source, entry_count, used_source_segments, source_now_tick);
        clear_words(index, builder.bucket_count * BUCKET_SLOTS);
        clear_words(filter, builder.filter_words);
        keep_words(used_source_segments, source_areas.starts, starts);
        keep_words(used_source_segments, source_areas.lengths, lengths);
        Ok(builder)
    }

    // Takes over a record of a kept segment. A refusal leaves rebuild and areas as they were.
    #[tactic(auto, using(crate::proofs::Decides::planned_no, crate::proofs::Decides::planned_yes, crate::proofs::Decides::decided_refused), unfolding(crate::specs::Rebuild::after_reused, crate::specs::RebuildPlans::plan_reused))]
    pub fn push_reused(
        &mut self,
        hash: u64,
        key: &[u8],
        value: &[u8],
        source: SegmentRecordLocation,
        index: &mut [u64],
        filter: &mut [u64],
        areas: SegmentAreas<'_>,
    ) -> Result<PushedRecord, SegmentCacheBuildError>
        ensures { reused_result result self.new index.new filter.new ≡ after_reused self.old hash key.now value.now source index.old filter.old areas.entry.starts.now areas.entry.lengths.now areas.entry.arena.now }
    {
        let slot = self.plan_reused(hash, key, value, source, index, filter.len(), areas)?;
        Ok(self.reused_at(slot, hash, key.len(), value.len(), source, index, filter))
    }

    // Copies a record behind the filled arena. Key and value can't be parts of the arena, which is lent to be
    // written: the caller copies them first. A refusal leaves rebuild and areas as they were.
    #[tactic(auto, using(crate::proofs::Decides::planned_no, crate::proofs::Decides::planned_two, crate::proofs::Decides::decided_refused), unfolding(crate::specs::Rebuild::after_copied, crate::specs::RebuildPlans::plan_copied))]
    pub fn push_copied(
        &mut self,
        hash: u64,
        key: &[u8],
        value: &[u8],
        ttl: Option<Duration>,
        index: &mut [u64],
        filter: &mut [u64],
        starts: &[u64],
        lengths: &[u64],
        arena: &mut [u8],
    ) -> Result<PushedRecord, SegmentCacheBuildError>
        ensures { copied_result result self.new index.new filter.new arena.new ≡ after_copied self.old hash key.now value.now ttl index.old filter.old starts.now lengths.now arena.old }
    {
        let areas = SegmentAreas {
            starts,
            lengths,
            arena,
        };
        let plan = self.plan_copied(
            hash,
            key.len(),
            value.len(),
            ttl,
            index,
            filter.len(),
            areas,
        )?;
        Ok(self.copied_at(plan, hash, key, value, index, filter, arena))
    }

    // Adds the segment of the copied records and brings the index into the set's layout. A refusal leaves the caller's
    // rebuild open.
    #[tactic(auto, using(crate::proofs::Decides::decided_refused, crate::proofs::RebuildAsked::refinish_asked, crate::proofs::KeptBits::retained_256, crate::proofs::RebuildSteps::adds_few, crate::proofs::RebuildSteps::sum_inside, crate::proofs::RebuildSteps::refinish_left_law), unfolding(crate::specs::Rebuild::after_rebuild_finish))]
    pub fn finish(
        self,
        index: &mut [u64],
        starts: &mut [u64],
        lengths: &mut [u64],
        scratch: &mut [u64],
        arena: &[u8],
    ) -> Result<SharedSegmentCacheBuild, SegmentCacheBuildError>
        ensures { rebuild_finish_result result self index.new starts.new lengths.new scratch.new ≡ after_rebuild_finish self index.old starts.old lengths.old scratch.old arena.now }
    {
        let areas = SegmentAreas {
            starts,
            lengths,
            arena,
        };
        self.check_finish(index.len(), areas, scratch.len())?;
        let build = self.into_build(lengths);
        self.add_segment(starts, lengths);
        pack_index(
            self.config.packed_bucket_index,
            index,
            self.bucket_count,
            scratch,
        );
        Ok(build)
    }

    // Writes the word and the filter mark of a record of a kept segment. The totals of reused records are free
    // numbers: they wrap at 64 bits.
    #[tactic(auto, using(crate::proofs::RebuildAsked::bytes_few, crate::proofs::RebuildSteps::reused_left_law))]
    fn reused_at(
        &mut self,
        slot: usize,
        hash: u64,
        key_bytes: usize,
        value_bytes: usize,
        source: SegmentRecordLocation,
        index: &mut [u64],
        filter: &mut [u64],
    ) -> PushedRecord
        requires fits { rebuild_fits self.old ≡ true }
        requires announced { self.old.inserted_entries < self.old.expected_entries }
        requires kept { is_kept self.old.kept (segment_part source.location) ≡ true }
        requires short { source.header_bytes + key_bytes + value_bytes ≤ most_arena_bytes }
        requires slot { slot < length index.old }
        ensures { reused_result (Ok result) self.new index.new filter.new ≡ reused_made slot self.old hash key_bytes value_bytes source index.old filter.old }
    {
        let location = self.moved_location(source.location);
        self.push_index(slot, hash, location, index, filter);
        self.inserted_entries += 1;
        self.logical_key_bytes += key_bytes;
        self.logical_value_bytes += value_bytes;
        self.record_header_bytes += source.header_bytes;
        let bytes = source.header_bytes + key_bytes + value_bytes;
        self.reused_entries = self.reused_entries.wrapping_add(1);
        self.reused_record_bytes = self.reused_record_bytes.wrapping_add(bytes);
        PushedRecord { slot, location }
    }

    // Writes the record, then its word and its filter mark.
    #[tactic(auto, using(crate::proofs::Appends::appended, crate::proofs::RebuildAsked::bytes_few, crate::proofs::RebuildSteps::copied_left_law))]
    fn copied_at(
        &mut self,
        plan: PushPlan,
        hash: u64,
        key: &[u8],
        value: &[u8],
        index: &mut [u64],
        filter: &mut [u64],
        arena: &mut [u8],
    ) -> PushedRecord
        requires fits { rebuild_fits self.old ≡ true }
        requires announced { self.old.inserted_entries < self.old.expected_entries }
        requires room { rebuild_filled self.old + copied_size self.old (length key.now) (length value.now) ≤ length arena.old }
        requires short { length arena.old ≤ most_arena_bytes }
        requires segment { retained self.old.kept < most_segments }
        requires slot { plan.slot < length index.old }
        ensures { copied_result (Ok result) self.new index.new filter.new arena.new ≡ copied_made plan.slot plan.expires_at self.old hash key.now value.now index.old filter.old arena.old }
    {
        let PushPlan { slot, expires_at } = plan;
        let rest = &mut arena[self.source_filled + self.copied_bytes..];
        let size = append_record(rest, self.config.expiry, key, value, expires_at);
        let location = self.kept.retained() * SEGMENT_BYTES + self.copied_bytes;
        self.push_index(slot, hash, location, index, filter);
        self.inserted_entries += 1;
        self.copied_bytes += size;
        self.logical_key_bytes += key.len();
        self.logical_value_bytes += value.len();
        self.record_header_bytes += size - key.len() - value.len();
        PushedRecord { slot, location }
    }

    // The word of a record, and its filter mark.
    fn push_index(
        self,
        slot: usize,
        hash: u64,
        location: usize,
        index: &mut [u64],
        filter: &mut [u64],
    )
        requires { slot < length index.old }
        ensures index { index.new ≡ slice_set index.old slot (word_of (tag_of hash) location) }
        ensures filter { filter.new ≡ displaced_marked filter.old self.filter_words hash slot self.bucket_count }
    {
        index[slot] = encode_index_word(hash_tag(hash), location as u64);
        mark_displaced(filter, self.filter_words, hash, slot, self.bucket_count);
    }
}

fn opened_rebuild(
    source: FrozenSegmentCache,
    entry_count: usize,
    used_source_segments: &[u8],
    source_now_tick: u64,
) -> SharedSegmentCacheBuilder
    requires { entry_count ≤ most_records }
    ensures { result ≡ rebuild_opened source entry_count used_source_segments.now source_now_tick }
{
    let config = source.config;
    SharedSegmentCacheBuilder {
        config,
        expected_entries: entry_count,
        inserted_entries: 0,
        bucket_count: bucket_count(entry_count, config.target_occupied_slots),
        filter_words: filter_words_for(entry_count, config.negative_filter_bits_per_entry),
        kept: KeptSegments::from_flags(used_source_segments),
        source_filled: source.filled,
        copied_bytes: 0,
        logical_key_bytes: 0,
        logical_value_bytes: 0,
        record_header_bytes: 0,
        reused_entries: 0,
        reused_record_bytes: 0,
        source_now_tick,
    }
}

// The kept words of a source's segment area in a new one, and 0 in the rest of its 256.
#[tactic(auto, using(crate::proofs::RebuildSteps::kept_most, crate::proofs::KeptBits::chosen_length, crate::proofs::RebuildSteps::over_cleared))]
fn keep_words(flags: &[u8], words: &[u64], area: &mut [u64])
    requires { (length flags.now ≤ length words.now) × (length flags.now ≤ most_segments) × (most_segments ≤ length area.old) }
    ensures { area.new ≡ over (padded (chosen flags.now words.now)) area.old }
{
    clear_words(area, MAX_RECORD_SEGMENTS);
    copy_kept(flags, words, area);
}
