// Finishing a rebuild: its last questions, the segment of the copied records, and the rebuilt set.
ghost use Rattle.std.specs.Prelude.{◌≡◌, ◌+◌, ◌^◌, ◌<◌, ◌≤◌, true, length, if◌then◌else◌};
ghost use Rattle.index.specs.Segments.{most_segments};
ghost use Rattle.sets.specs.Kept.{retained};
ghost use Rattle.sets.specs.Questions.{check_number, counts_fit, first_no, most_arena_bytes};
ghost use Rattle.sets.specs.Rebuild.{adds_segment, ask_rebuild_finish, build_of, rebuild_filled, rebuilt_set, sum_of, with_last};

use crate::areas::sum_of;
use crate::cache::FrozenSegmentCache;
use crate::questions::scratch_holds;
use crate::rebuild::{SharedSegmentCacheBuild, SharedSegmentCacheBuilder};
use hash_parts::error::SegmentCacheBuildError;
use index::view::SegmentAreas;

impl SharedSegmentCacheBuilder {
    // The questions of finish.
    #[tactic(auto, unfolding(crate::specs::Rebuild::ask_rebuild_finish))]
    pub(crate) fn check_finish(
        self,
        index_len: usize,
        areas: SegmentAreas<'_>,
        scratch_len: usize,
    ) -> Result<(), SegmentCacheBuildError>
        ensures { check_number result ≡ first_no (ask_rebuild_finish self index_len areas.entry.starts.now areas.entry.lengths.now scratch_len (length areas.entry.arena.now)) }
    {
        if !self.areas_hold(index_len, areas) {
            return Err(SegmentCacheBuildError::InvalidState);
        }
        if self.inserted_entries != self.expected_entries {
            return Err(SegmentCacheBuildError::CapacityOverflow);
        }
        if !scratch_holds(self.config, self.bucket_count, scratch_len) {
            return Err(SegmentCacheBuildError::AreaTooShort);
        }
        Ok(())
    }

    // No segment is added for no copied bytes, unless none is kept.
    #[tactic(auto, unfolding(crate::specs::Rebuild::adds_segment))]
    fn adds_segment(self) -> bool
        ensures { result ≡ adds_segment self }
    {
        self.copied_bytes != 0 || self.kept.retained() == 0
    }

    // The start and the length of the segment of the copied records, where there is one.
    #[tactic(auto, using(crate::proofs::RebuildSteps::adds_below))]
    pub(crate) fn add_segment(self, starts: &mut [u64], lengths: &mut [u64])
        requires starts { most_segments ≤ length starts.old }
        requires lengths { most_segments ≤ length lengths.old }
        requires few { retained self.kept + (if adds_segment self then 1 else 0) ≤ most_segments }
        ensures { (starts.new ≡ with_last self starts.old self.source_filled) × (lengths.new ≡ with_last self lengths.old self.copied_bytes) }
    {
        if self.adds_segment() {
            let last = self.kept.retained();
            starts[last] = self.source_filled as u64;
            lengths[last] = self.copied_bytes as u64;
        }
    }

    // The finished set, and what it took.
    #[tactic(auto, using(crate::proofs::Finding::few_buckets, crate::proofs::Finding::few_words))]
    pub(crate) fn into_build(self, lengths: &[u64]) -> SharedSegmentCacheBuild
        requires lengths { retained self.kept ≤ length lengths.now }
        requires sum { sum_of (retained self.kept) lengths.now ≤ 2 ^ 38 }
        requires short { rebuild_filled self ≤ most_arena_bytes }
        requires counts { counts_fit self.config self.expected_entries self.bucket_count self.filter_words ≡ true }
        ensures { result ≡ build_of self lengths.now }
    {
        let index_bytes = self.bucket_count * 64 + self.filter_words * 8;
        SharedSegmentCacheBuild {
            cache: self.into_cache(lengths),
            reused_entries: self.reused_entries,
            reused_record_bytes: self.reused_record_bytes,
            copied_record_bytes: self.copied_bytes,
            newly_allocated_bytes: index_bytes + self.copied_bytes,
        }
    }

    #[tactic(auto, using(crate::proofs::RebuildSteps::sum_part))]
    fn into_cache(self, lengths: &[u64]) -> FrozenSegmentCache
        requires lengths { retained self.kept ≤ length lengths.now }
        requires sum { sum_of (retained self.kept) lengths.now ≤ 2 ^ 38 }
        requires short { rebuild_filled self ≤ most_arena_bytes }
        ensures { result ≡ rebuilt_set self lengths.now }
    {
        FrozenSegmentCache {
            config: self.config,
            entries: self.expected_entries,
            buckets: self.bucket_count,
            filter_words: self.filter_words,
            segments: self.segment_count(),
            filled: self.source_filled + self.copied_bytes,
            record_bytes: sum_of(&lengths[..self.kept.retained()]) + self.copied_bytes,
            logical_key_bytes: self.logical_key_bytes,
            logical_value_bytes: self.logical_value_bytes,
            record_header_bytes: self.record_header_bytes,
        }
    }

    // The kept segments, and that of the copied records.
    #[tactic(auto, using(crate::proofs::KeptBits::retained_256))]
    fn segment_count(self) -> usize
        ensures { result ≡ retained self.kept + (if adds_segment self then 1 else 0) }
    {
        let retained = self.kept.retained();
        if self.adds_segment() {
            retained + 1
        } else {
            retained
        }
    }
}
