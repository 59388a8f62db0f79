// One call for C in a library of its own, where nothing else calls what it calls: so the compiler makes one
// piece of code of it. For that capi_peek, capi_probe and capi_take_accessed have like bodies, of other methods: a function of
// all would have four callers.
// C lends each area by itself, so each is an argument of its own.
#![tactic(auto)]

ghost use Rattle.std.specs.Prelude.{◌≡◌};
ghost use Rattle.capi.specs.Calls.{exported_get, index_told};

use capi::answers::{SPAN_WORDS, lent_state, tell};
use capi::words::MALFORMED;
use index::view::SegmentAreas;
use sets::cache::FrozenSegmentCache;

// The three words of the span: 1 and the value's place and length in the arena, or three zeros.
#[tactic(auto, unfolding(capi::specs::Calls::exported_get))]
#[unsafe(no_mangle)]
pub extern "C" fn segment_cache_get(
    set: &[u64],
    hash: u64,
    key: &[u8],
    tick: u64,
    index: &mut [u64],
    filter: &[u64],
    starts: &[u64],
    lengths: &[u64],
    arena: &[u8],
    span: &mut [u64],
) -> u64
    ensures { index_told result index.new span.new ≡ exported_get set.now hash key.now tick index.old filter.now starts.now lengths.now arena.now span.old }
{
    let Some(set) = lent_state::<SPAN_WORDS, FrozenSegmentCache>(set, span) else {
        return MALFORMED;
    };
    let areas = SegmentAreas {
        starts,
        lengths,
        arena,
    };
    let answer = set.get_at_tick(hash, key, tick, index, filter, areas);
    tell(answer, span)
}
