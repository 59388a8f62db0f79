// One call for C in a library of its own, where nothing else calls what it calls: so the compiler makes one
// piece of code of it. For that capi_get, capi_peek and capi_probe have like bodies, of other methods: a function of
// all would have four callers.
// C lends each area by itself, so each is an argument of its own.
#![tactic(auto)]

ghost use Rattle.std.specs.Prelude.{◌≡◌};
ghost use Rattle.capi.specs.Calls.{exported_take, index_told};

use capi::answers::{lent_state, tell};
use capi::words::MALFORMED;
use index::view::SegmentAreas;
use sets::cache::FrozenSegmentCache;

// The word: 1 where the mark was set, else 0.
#[tactic(auto, unfolding(capi::specs::Calls::exported_take))]
#[unsafe(no_mangle)]
pub extern "C" fn segment_cache_take_accessed(
    set: &[u64],
    hash: u64,
    key: &[u8],
    index: &mut [u64],
    filter: &[u64],
    starts: &[u64],
    lengths: &[u64],
    arena: &[u8],
    accessed: &mut [u64],
) -> u64
    ensures { index_told result index.new accessed.new ≡ exported_take set.now hash key.now index.old filter.now starts.now lengths.now arena.now accessed.old }
{
    let Some(set) = lent_state::<1, FrozenSegmentCache>(set, accessed) else {
        return MALFORMED;
    };
    let areas = SegmentAreas {
        starts,
        lengths,
        arena,
    };
    let answer = set.take_accessed(hash, key, index, filter, areas);
    tell(answer, accessed)
}
