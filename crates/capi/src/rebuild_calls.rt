// Opening and finishing a rebuild of a set. C lends each area by itself, so each is an argument of its own.
ghost use Rattle.std.specs.Prelude.{◌≡◌};
ghost use Rattle.std.proofs.Common.{lit<};
ghost use Rattle.capi.specs.Rebuilds.{exported_rebuild_finish, exported_rebuild_open, rebuild_finish_words, rebuild_open_words, totals_words};

use crate::answers::{lent_state, tell};
use crate::words::{FromWords, MALFORMED, REBUILD_WORDS, SET_WORDS, ToWords, copy_words};
use index::view::SegmentAreas;
use sets::cache::FrozenSegmentCache;
use sets::rebuild::{SharedSegmentCacheBuild, SharedSegmentCacheBuilder};

// The words of the totals: reused entries, reused, copied and newly allocated bytes.
const TOTALS_WORDS: usize = 4;

#[unsafe(no_mangle)]
pub extern "C" fn segment_cache_rebuild_words() -> usize
    ensures { result ≡ 22 }
{
    REBUILD_WORDS
}

#[tactic(auto, using(crate::proofs::Replies::told_back), unfolding(crate::specs::Rebuilds::exported_rebuild_open))]
#[unsafe(no_mangle)]
pub extern "C" fn segment_cache_rebuild_open(
    set: &[u64],
    source_starts: &[u64],
    source_lengths: &[u64],
    arena: &[u8],
    records: usize,
    copied_record_capacity: usize,
    used_source_segments: &[u8],
    source_now_tick: u64,
    rebuild: &mut [u64],
    index: &mut [u64],
    filter: &mut [u64],
    starts: &mut [u64],
    lengths: &mut [u64],
) -> u64
    ensures { rebuild_open_words result rebuild.new index.new filter.new starts.new lengths.new ≡ exported_rebuild_open set.now source_starts.now source_lengths.now arena.now records copied_record_capacity used_source_segments.now source_now_tick rebuild.old index.old filter.old starts.old lengths.old }
{
    let Some(source) = lent_state::<REBUILD_WORDS, FrozenSegmentCache>(set, rebuild) else {
        return MALFORMED;
    };
    let source_areas = SegmentAreas {
        starts: source_starts,
        lengths: source_lengths,
        arena,
    };
    let answer = SharedSegmentCacheBuilder::try_new(
        source,
        source_areas,
        records,
        copied_record_capacity,
        used_source_segments,
        source_now_tick,
        index,
        filter,
        starts,
        lengths,
    );
    tell(answer, rebuild)
}

#[tactic(auto, unfolding(crate::specs::Rebuilds::exported_rebuild_finish))]
#[unsafe(no_mangle)]
pub extern "C" fn segment_cache_rebuild_finish(
    rebuild: &[u64],
    index: &mut [u64],
    starts: &mut [u64],
    lengths: &mut [u64],
    scratch: &mut [u64],
    arena: &[u8],
    set: &mut [u64],
    totals: &mut [u64],
) -> u64
    ensures { rebuild_finish_words result index.new starts.new lengths.new scratch.new set.new totals.new ≡ exported_rebuild_finish rebuild.now index.old starts.old lengths.old scratch.old arena.now set.old totals.old }
{
    if set.len() != SET_WORDS {
        return MALFORMED;
    }
    if totals.len() != TOTALS_WORDS {
        return MALFORMED;
    }
    let Some(state) = SharedSegmentCacheBuilder::from_words(rebuild) else {
        return MALFORMED;
    };
    match state.finish(index, starts, lengths, scratch, arena) {
        Ok(build) => {
            copy_words(set, &build.cache.to_words());
            copy_words(totals, &build.to_words());
            0
        }
        Err(refusal) => refusal.number() as u64,
    }
}

impl ToWords<TOTALS_WORDS> for SharedSegmentCacheBuild {
    ghost words_of = { totals_words };

    ghost fits = { lit< tt };

    fn to_words(self) -> [u64; TOTALS_WORDS] {
        [
            self.reused_entries as u64,
            self.reused_record_bytes as u64,
            self.copied_record_bytes as u64,
            self.newly_allocated_bytes as u64,
        ]
    }
}
