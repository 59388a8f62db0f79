// The questions of a build, which only read. Every number of a state and of the areas lent to it is
// free: sums are made only after what bounds them was asked.
ghost use Rattle.std.specs.Prelude.{◌≡◌, ◌≤◌, length, take};
ghost use Rattle.sets.specs.Questions.{check_number, first_no};
ghost use Rattle.sets.specs.Build.{areas_hold_builder, ask_finish, builder_fits};
ghost use Rattle.sets.specs.BuildPlans.{plan_push, plan_record, planned};

use crate::builder::{PushPlan, SegmentCacheBuilder};
use crate::questions::{
    arena_holds, bytes_fit, counts_fit, lifetime_fits, record_fits, scratch_holds,
    segment_areas_hold, target_fits,
};
use hash_parts::duration::{Duration, encode_expiry_at_tick};
use hash_parts::error::SegmentCacheBuildError;
use index::build::find_build_slot;
use index::segments::locations_inside;
use index::view::SegmentAreas;
use index::word::BUCKET_SLOTS;
use records::record::Records;

impl SegmentCacheBuilder {
    // Whether the state's own numbers fit.
    #[tactic(auto, using(crate::proofs::Counts::counts_records), unfolding(crate::specs::Build::builder_fits))]
    fn fits(self) -> bool
        ensures { result ≡ builder_fits self }
    {
        let inserted = self.inserted_entries;
        let keys = self.logical_key_bytes;
        let values = self.logical_value_bytes;
        counts_fit(
            self.config,
            self.expected_entries,
            self.bucket_count,
            self.filter_words,
        ) && inserted <= self.expected_entries
            && bytes_fit(inserted, keys)
            && bytes_fit(inserted, values)
            && keys + values <= self.filled
            && bytes_fit(inserted, self.filled - keys - values)
    }

    // Whether they fit, and index and arena hold what they tell.
    #[tactic(auto, unfolding(crate::specs::Build::areas_hold_builder))]
    fn areas_hold(self, index_len: usize, arena_len: usize) -> bool
        ensures { result ≡ areas_hold_builder self index_len arena_len }
    {
        self.fits()
            && self.bucket_count <= index_len / BUCKET_SLOTS
            && arena_holds(self.filled, arena_len)
    }

    // The questions of a push.
    #[tactic(auto, using(crate::proofs::Counts::builder_areas_asked, crate::proofs::Decides::decided_refused, crate::proofs::Decides::own_refused), unfolding(crate::specs::BuildPlans::plan_push, crate::specs::Build::ask_push, crate::specs::BuildPlans::plan_record, crate::specs::BuildPlans::ask_record))]
    pub(crate) fn plan_push(
        self,
        hash: u64,
        key: &[u8],
        value_bytes: usize,
        ttl: Option<Duration>,
        index: &[u64],
        filter_len: usize,
        arena: &[u8],
    ) -> Result<PushPlan, SegmentCacheBuildError>
        ensures { planned result ≡ plan_push self hash key.now value_bytes ttl index.now filter_len arena.now }
    {
        if !self.areas_hold(index.len(), arena.len()) {
            return Err(SegmentCacheBuildError::InvalidState);
        }
        if filter_len < self.filter_words {
            return Err(SegmentCacheBuildError::InvalidState);
        }
        if !lifetime_fits(ttl) {
            return Err(SegmentCacheBuildError::InvalidNanoseconds);
        }
        if self.inserted_entries >= self.expected_entries {
            return Err(SegmentCacheBuildError::CapacityOverflow);
        }
        let records = Records {
            bytes: &arena[..self.filled],
            expiry: self.config.expiry,
        };
        let slot = find_build_slot(index, self.bucket_count, records, key, hash)?;
        self.plan_record(slot, key.len(), value_bytes, ttl, arena.len())
    }

    // The last of them: the deadline, and room in the arena. Apart, since behind more than five early returns LLVM would
    // not inline it.
    #[tactic(auto, using(crate::proofs::Appends::room, crate::proofs::Decides::decided_refused, crate::proofs::Decides::own_refused), unfolding(crate::specs::BuildPlans::plan_record, crate::specs::BuildPlans::ask_record))]
    fn plan_record(
        self,
        slot: usize,
        key_bytes: usize,
        value_bytes: usize,
        ttl: Option<Duration>,
        arena_len: usize,
    ) -> Result<PushPlan, SegmentCacheBuildError>
        requires { self.filled ≤ arena_len }
        ensures { planned result ≡ plan_record self slot key_bytes value_bytes ttl arena_len }
    {
        let expiry = self.config.expiry;
        let expires_at = encode_expiry_at_tick(expiry, ttl, 0)?;
        if !record_fits(expiry, key_bytes, value_bytes, arena_len - self.filled) {
            return Err(SegmentCacheBuildError::AreaTooShort);
        }
        Ok(PushPlan { slot, expires_at })
    }

    // The questions of finish but the last, the number of segments.
    #[tactic(auto, unfolding(crate::specs::Build::ask_finish))]
    pub(crate) fn check_finish(
        self,
        target: usize,
        index: &[u64],
        areas: SegmentAreas<'_>,
        scratch_len: usize,
    ) -> Result<(), SegmentCacheBuildError>
        ensures { check_number result ≡ first_no (take 6 (ask_finish self target index.now
            (length areas.entry.starts.now) (length areas.entry.lengths.now) scratch_len (length areas.entry.arena.now))) }
    {
        if !self.areas_hold(index.len(), areas.arena.len()) {
            return Err(SegmentCacheBuildError::InvalidState);
        }
        if !segment_areas_hold(areas.starts.len(), areas.lengths.len()) {
            return Err(SegmentCacheBuildError::InvalidState);
        }
        if self.inserted_entries != self.expected_entries {
            return Err(SegmentCacheBuildError::CapacityOverflow);
        }
        if !target_fits(target) {
            return Err(SegmentCacheBuildError::InvalidSegmentTarget);
        }
        if !scratch_holds(self.config, self.bucket_count, scratch_len) {
            return Err(SegmentCacheBuildError::AreaTooShort);
        }
        if !locations_inside(index, self.bucket_count, self.filled) {
            return Err(SegmentCacheBuildError::InvalidState);
        }
        Ok(())
    }
}
