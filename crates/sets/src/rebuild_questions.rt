// The questions of rebuilds, which only read. Every number of a state and of the areas lent to it is
// free: sums are made only after what bounds them was asked.
ghost use Rattle.std.specs.Prelude.{◌≡◌, ◌+◌, ◌*◌, ◌/◌, ◌^◌, ◌<◌, ◌≤◌, true, Some, length};
ghost use Rattle.index.specs.View.{record_in};
ghost use Rattle.index.specs.Word.{segment_part};
ghost use Rattle.sets.specs.BuildPlans.{planned};
ghost use Rattle.sets.specs.Kept.{is_kept};
ghost use Rattle.sets.specs.Questions.{arena_holds, check_number, first_no};
ghost use Rattle.sets.specs.Rebuild.{areas_hold_rebuild, areas_hold_source, ask_rebuild_open, rebuild_filled, holds_record, kept_view, moved_location, rebuild_fits, segment_for, segments_inside};
ghost use Rattle.sets.specs.RebuildPlans.{plan_copied, plan_reused, plan_room, slot_planned};

use crate::builder::PushPlan;
use crate::cache::FrozenSegmentCache;
use crate::kept::kept_count;
use crate::questions::{
    MAX_RECORDS, arena_holds, bytes_fit, counts_fit, lifetime_fits, open_areas_hold, record_fits,
    segment_areas_hold,
};
use crate::rebuild::{SegmentRecordLocation, SharedSegmentCacheBuilder};
use hash_parts::duration::{Duration, encode_expiry_at_tick};
use hash_parts::error::SegmentCacheBuildError;
use index::build::find_empty_build_slot;
use index::segments::MAX_RECORD_SEGMENTS;
use index::view::{SegmentAreas, SegmentView};
use index::word::BUCKET_SLOTS;
use records::record::{RecordRef, same_bytes, value_slice};

// Locations in records and states are a usize.
pub(crate) const SEGMENT_BYTES: usize = index::word::SEGMENT_BYTES as usize;

impl SharedSegmentCacheBuilder {
    // Whether the state's own numbers fit.
    #[tactic(auto, using(crate::proofs::Counts::counts_records, crate::proofs::RebuildSteps::segment_most, crate::proofs::KeptBits::retained_256), unfolding(crate::specs::Rebuild::rebuild_fits))]
    fn fits(self) -> bool
        ensures { result ≡ rebuild_fits self }
    {
        let inserted = self.inserted_entries;
        counts_fit(
            self.config,
            self.expected_entries,
            self.bucket_count,
            self.filter_words,
        ) && inserted <= self.expected_entries
            && self.kept.retained() + segment_for(self.copied_bytes) <= MAX_RECORD_SEGMENTS
            && bytes_fit(inserted, self.logical_key_bytes)
            && bytes_fit(inserted, self.logical_value_bytes)
            && bytes_fit(inserted, self.record_header_bytes)
    }

    // Whether they fit, and index, segment areas and arena hold what they tell.
    #[tactic(auto, using(crate::proofs::RebuildAsked::rebuild_asked, crate::proofs::RebuildSteps::areas_256, crate::proofs::RebuildSteps::arena_held, crate::proofs::KeptBits::retained_256), unfolding(crate::specs::Rebuild::areas_hold_rebuild))]
    pub(crate) fn areas_hold(self, index_len: usize, areas: SegmentAreas<'_>) -> bool
        ensures { result ≡ areas_hold_rebuild self index_len areas.entry.starts.now areas.entry.lengths.now (length areas.entry.arena.now) }
    {
        let source_filled = self.source_filled;
        let copied = self.copied_bytes;
        self.fits()
            && self.bucket_count <= index_len / BUCKET_SLOTS
            && segment_areas_hold(areas.starts.len(), areas.lengths.len())
            && arena_holds_both(source_filled, copied, areas.arena.len())
            && segments_inside(
                self.kept.retained(),
                source_filled + copied,
                areas.starts,
                areas.lengths,
            )
    }

    // The questions of a reused push.
    #[tactic(auto, using(crate::proofs::RebuildAsked::rebuild_areas_asked, crate::proofs::Decides::decided_refused, crate::proofs::Decides::own_refused), unfolding(crate::specs::RebuildPlans::plan_reused, crate::specs::Rebuild::ask_reused))]
    pub(crate) fn plan_reused(
        self,
        hash: u64,
        key: &[u8],
        value: &[u8],
        source: SegmentRecordLocation,
        index: &[u64],
        filter_len: usize,
        areas: SegmentAreas<'_>,
    ) -> Result<usize, SegmentCacheBuildError>
        ensures { slot_planned result ≡ plan_reused self hash key.now value.now source index.now filter_len areas.entry.starts.now areas.entry.lengths.now areas.entry.arena.now }
    {
        if !self.areas_hold(index.len(), areas) {
            return Err(SegmentCacheBuildError::InvalidState);
        }
        if filter_len < self.filter_words {
            return Err(SegmentCacheBuildError::InvalidState);
        }
        if self.inserted_entries >= self.expected_entries {
            return Err(SegmentCacheBuildError::CapacityOverflow);
        }
        if !self.kept.is_kept(source.location / SEGMENT_BYTES) {
            return Err(SegmentCacheBuildError::CapacityOverflow);
        }
        if !self.holds_record(key, value, source, areas) {
            return Err(SegmentCacheBuildError::RecordMismatch);
        }
        find_empty_build_slot(index, self.bucket_count, hash)
    }

    // Whether a kept segment holds this record where the source held it.
    #[tactic(auto, using(crate::proofs::KeptBits::number_below, crate::proofs::KeptBits::retained_256), unfolding(crate::specs::Rebuild::holds_record))]
    fn holds_record(
        self,
        key: &[u8],
        value: &[u8],
        source: SegmentRecordLocation,
        areas: SegmentAreas<'_>,
    ) -> bool
        requires { (is_kept self.kept (segment_part source.location) ≡ true) × (rebuild_filled self < 2 ^ 64) }
        ensures { result ≡ holds_record key.now value.now source.header_bytes areas.entry.arena.now
            (record_in (kept_view self) areas.entry.arena.now areas.entry.starts.now areas.entry.lengths.now (moved_location self source.location + 1)) }
    {
        let stored = self.moved_location(source.location) as u64 + 1;
        let Some(record) = self.view().record_at_location(areas, stored) else {
            return false;
        };
        same_record(record, key, value, source.header_bytes, areas.arena)
    }

    // What a reader must know of the kept segments.
    fn view(self) -> SegmentView
        requires { rebuild_filled self < 2 ^ 64 }
        ensures { result ≡ kept_view self }
    {
        SegmentView {
            expiry: self.config.expiry,
            filled: self.source_filled + self.copied_bytes,
            segments: self.kept.retained(),
        }
    }

    // A location of the source, with its segment numbered anew.
    #[tactic(auto, using(crate::proofs::KeptBits::kept_below, crate::proofs::KeptBits::number_below, crate::proofs::KeptBits::retained_256))]
    pub(crate) fn moved_location(self, location: usize) -> usize
        requires { is_kept self.kept (segment_part location) ≡ true }
        ensures { result ≡ moved_location self location }
    {
        let segment = self.kept.new_number(location / SEGMENT_BYTES);
        segment * SEGMENT_BYTES + location % SEGMENT_BYTES
    }

    // The questions of a copied push.
    #[tactic(auto, using(crate::proofs::RebuildAsked::rebuild_areas_asked, crate::proofs::Decides::decided_refused, crate::proofs::Decides::own_refused), unfolding(crate::specs::RebuildPlans::plan_copied, crate::specs::Rebuild::ask_copied, crate::specs::RebuildPlans::plan_room, crate::specs::RebuildPlans::ask_room))]
    pub(crate) fn plan_copied(
        self,
        hash: u64,
        key_bytes: usize,
        value_bytes: usize,
        ttl: Option<Duration>,
        index: &[u64],
        filter_len: usize,
        areas: SegmentAreas<'_>,
    ) -> Result<PushPlan, SegmentCacheBuildError>
        ensures { planned result ≡ plan_copied self hash key_bytes value_bytes ttl index.now filter_len areas.entry.starts.now areas.entry.lengths.now (length areas.entry.arena.now) }
    {
        if !self.areas_hold(index.len(), areas) {
            return Err(SegmentCacheBuildError::InvalidState);
        }
        if filter_len < self.filter_words {
            return Err(SegmentCacheBuildError::InvalidState);
        }
        if !lifetime_fits(ttl) {
            return Err(SegmentCacheBuildError::InvalidNanoseconds);
        }
        if self.inserted_entries >= self.expected_entries {
            return Err(SegmentCacheBuildError::CapacityOverflow);
        }
        let expires_at = encode_expiry_at_tick(self.config.expiry, ttl, self.source_now_tick)?;
        let arena_len = areas.arena.len();
        self.plan_room(expires_at, hash, key_bytes, value_bytes, index, arena_len)
    }

    // The last of them: room in the arena, a segment number, and a slot. Apart, since behind more than five early returns
    // LLVM would not inline it.
    #[tactic(auto, using(crate::proofs::Appends::room, crate::proofs::Decides::decided_refused, crate::proofs::Decides::own_refused), unfolding(crate::specs::RebuildPlans::plan_room, crate::specs::RebuildPlans::ask_room))]
    fn plan_room(
        self,
        expires_at: u16,
        hash: u64,
        key_bytes: usize,
        value_bytes: usize,
        index: &[u64],
        arena_len: usize,
    ) -> Result<PushPlan, SegmentCacheBuildError>
        requires { rebuild_filled self ≤ arena_len }
        ensures { planned result ≡ plan_room self expires_at hash key_bytes value_bytes index.now arena_len }
    {
        let rest = arena_len - (self.source_filled + self.copied_bytes);
        if !record_fits(self.config.expiry, key_bytes, value_bytes, rest) {
            return Err(SegmentCacheBuildError::AreaTooShort);
        }
        if self.kept.retained() >= MAX_RECORD_SEGMENTS {
            return Err(SegmentCacheBuildError::ArenaTooLarge);
        }
        let slot = find_empty_build_slot(index, self.bucket_count, hash)?;
        Ok(PushPlan { slot, expires_at })
    }
}

// One segment for some bytes, none for no bytes.
fn segment_for(bytes: usize) -> usize
    ensures { result ≡ segment_for bytes }
{
    if bytes == 0 { 0 } else { 1 }
}

// Whether each of the first segments lies in the filled arena. The count stands beside the areas: they
// are cut here, and not twice at each call.
fn segments_inside(count: usize, filled: usize, starts: &[u64], lengths: &[u64]) -> bool
    requires { (count ≤ length starts.now) × (count ≤ length lengths.now) }
    ensures { result ≡ segments_inside count filled starts.now lengths.now }
{
    let end = filled as u64;
    let mut segments = starts[..count].iter().zip(&lengths[..count]);
    segments.all(|(&start, &length)| length <= end && start <= end - length)
}

// Whether the arena holds the source's bytes and the copied ones after them.
#[tactic(auto, unfolding(crate::specs::Questions::arena_holds))]
fn arena_holds_both(source_filled: usize, copied: usize, arena_len: usize) -> bool
    ensures { result ≡ arena_holds (source_filled + copied) arena_len }
{
    source_filled <= arena_len
        && copied <= arena_len - source_filled
        && arena_holds(source_filled + copied, arena_len)
}

// Whether a source's numbers fit, and its areas hold what they tell. A caller may have no more of the
// arena than its length.
#[tactic(auto, using(crate::proofs::RebuildSteps::areas_256, crate::proofs::Counts::set_segments), unfolding(crate::specs::Rebuild::areas_hold_source))]
pub fn source_holds(
    source: FrozenSegmentCache,
    starts: &[u64],
    lengths: &[u64],
    arena_len: usize,
) -> bool
    ensures { result ≡ areas_hold_source source starts.now lengths.now arena_len }
{
    source.fits()
        && segment_areas_hold(starts.len(), lengths.len())
        && arena_holds(source.filled, arena_len)
        && segments_inside(source.segments, source.filled, starts, lengths)
}

// The questions of rebuild open.
#[tactic(auto, using(crate::proofs::RebuildAsked::source_areas_asked, crate::proofs::RebuildSteps::kept_most, crate::proofs::RebuildSteps::segment_most), unfolding(crate::specs::Rebuild::ask_rebuild_open))]
pub(crate) fn check_rebuild_open(
    source: FrozenSegmentCache,
    areas: SegmentAreas<'_>,
    entry_count: usize,
    copied_record_capacity: usize,
    used_source_segments: &[u8],
    index_len: usize,
    filter_len: usize,
    starts_len: usize,
    lengths_len: usize,
) -> Result<(), SegmentCacheBuildError>
    ensures { check_number result ≡ first_no (ask_rebuild_open source
        areas.entry.starts.now areas.entry.lengths.now (length areas.entry.arena.now)
        entry_count copied_record_capacity used_source_segments.now index_len filter_len starts_len lengths_len) }
{
    if !source_holds(source, areas.starts, areas.lengths, areas.arena.len()) {
        return Err(SegmentCacheBuildError::InvalidState);
    }
    if used_source_segments.len() != source.segments {
        return Err(SegmentCacheBuildError::CapacityOverflow);
    }
    if entry_count > MAX_RECORDS {
        return Err(SegmentCacheBuildError::CapacityOverflow);
    }
    let retained = kept_count(used_source_segments);
    if retained + segment_for(copied_record_capacity) > MAX_RECORD_SEGMENTS {
        return Err(SegmentCacheBuildError::ArenaTooLarge);
    }
    if !open_areas_hold(source.config, entry_count, index_len, filter_len) {
        return Err(SegmentCacheBuildError::AreaTooShort);
    }
    if !segment_areas_hold(starts_len, lengths_len) {
        return Err(SegmentCacheBuildError::AreaTooShort);
    }
    Ok(())
}

// Whether a record that was read is this one.
#[tactic(auto, unfolding(crate::specs::Rebuild::holds_record))]
fn same_record(
    record: RecordRef,
    key: &[u8],
    value: &[u8],
    header_bytes: usize,
    arena: &[u8],
) -> bool
    ensures { result ≡ holds_record key.now value.now header_bytes arena.now (Some «record») }
{
    record.key_offset == header_bytes
        && same_bytes(value_slice(arena, record.key), key)
        && same_bytes(value_slice(arena, record.value), value)
}
