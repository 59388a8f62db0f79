// One call for C in a library of its own, where nothing else calls what it calls: so the compiler makes one
// piece of code of it. For that capi_get, capi_probe and capi_take_accessed have like bodies, of other methods: a function of
// all would have four callers.
// C lends each area by itself, so each is an argument of its own.
#![tactic(auto)]

ghost use Rattle.std.specs.Prelude.{◌≡◌};
ghost use Rattle.capi.specs.Calls.{exported_peek, told};

use capi::answers::{SPAN_WORDS, lent_state, tell};
use capi::words::MALFORMED;
use index::view::SegmentAreas;
use sets::cache::FrozenSegmentCache;

// A lookup with no mark set, in the words of segment_cache_get.
#[tactic(auto, unfolding(capi::specs::Calls::exported_peek))]
#[unsafe(no_mangle)]
pub extern "C" fn segment_cache_peek(
    set: &[u64],
    hash: u64,
    key: &[u8],
    tick: u64,
    index: &[u64],
    filter: &[u64],
    starts: &[u64],
    lengths: &[u64],
    arena: &[u8],
    span: &mut [u64],
) -> u64
    ensures { told result span.new ≡ exported_peek set.now hash key.now tick index.now filter.now starts.now lengths.now arena.now span.old }
{
    let Some(set) = lent_state::<SPAN_WORDS, FrozenSegmentCache>(set, span) else {
        return MALFORMED;
    };
    let areas = SegmentAreas {
        starts,
        lengths,
        arena,
    };
    let answer = set.peek_at_tick(hash, key, tick, index, filter, areas);
    tell(answer, span)
}
