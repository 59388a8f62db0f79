// Statistics of a set, and the numbers worked out of statistics. The exports of a number differ in the method alone: C needs
// a function by its name for each.
ghost use Rattle.std.specs.Prelude.{◌≡◌};
ghost use Rattle.capi.specs.Calls.{exported_number, exported_stats, load_in, overhead_in, retained_in, told};

use crate::answers::{lent_state, tell};
use crate::words::{MALFORMED, STATS_WORDS};
use sets::cache::FrozenSegmentCache;
use sets::stats::SegmentCacheStats;

#[tactic(auto, unfolding(crate::specs::Calls::exported_stats))]
#[unsafe(no_mangle)]
pub extern "C" fn segment_cache_stats(set: &[u64], stats: &mut [u64]) -> u64
    ensures { told result stats.new ≡ exported_stats set.now stats.old }
{
    let Some(set) = lent_state::<STATS_WORDS, FrozenSegmentCache>(set, stats) else {
        return MALFORMED;
    };
    tell(set.stats(), stats)
}

#[tactic(auto, unfolding(crate::specs::Calls::exported_number))]
#[unsafe(no_mangle)]
pub extern "C" fn segment_cache_modeled_retained_bytes(stats: &[u64], out: &mut [u64]) -> u64
    ensures { told result out.new ≡ exported_number retained_in stats.now out.old }
{
    let Some(stats) = lent_state::<1, SegmentCacheStats>(stats, out) else {
        return MALFORMED;
    };
    tell(Ok(stats.modeled_retained_bytes()), out)
}

#[tactic(auto, unfolding(crate::specs::Calls::exported_number))]
#[unsafe(no_mangle)]
pub extern "C" fn segment_cache_modeled_overhead_bytes(stats: &[u64], out: &mut [u64]) -> u64
    ensures { told result out.new ≡ exported_number overhead_in stats.now out.old }
{
    let Some(stats) = lent_state::<1, SegmentCacheStats>(stats, out) else {
        return MALFORMED;
    };
    tell(Ok(stats.modeled_overhead_bytes()), out)
}

#[tactic(auto, unfolding(crate::specs::Calls::exported_number))]
#[unsafe(no_mangle)]
pub extern "C" fn segment_cache_index_load_bps(stats: &[u64], out: &mut [u64]) -> u64
    ensures { told result out.new ≡ exported_number load_in stats.now out.old }
{
    let Some(stats) = lent_state::<1, SegmentCacheStats>(stats, out) else {
        return MALFORMED;
    };
    tell(Ok(usize::from(stats.index_load_bps())), out)
}
