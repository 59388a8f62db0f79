// One call for C in a library of its own, where nothing else calls what it calls: so the compiler makes one
// piece of code of it. C lends each area by itself, so each is an argument of its own.
#![tactic(auto)]

ghost use Rattle.std.specs.Prelude.{◌≡◌};
ghost use Rattle.capi.specs.Calls.{exported_walk, told};

use capi::answers::{RECORD_WORDS, lent_state, tell};
use capi::words::MALFORMED;
use index::view::SegmentAreas;
use sets::cache::FrozenSegmentCache;

// A step of the walk: the first record from a slot on, in the words of segment_cache_probe.
#[tactic(auto, unfolding(capi::specs::Calls::exported_walk))]
#[unsafe(no_mangle)]
pub extern "C" fn segment_cache_next_entry(
    set: &[u64],
    from: usize,
    tick: u64,
    index: &[u64],
    starts: &[u64],
    lengths: &[u64],
    arena: &[u8],
    record: &mut [u64],
) -> u64
    ensures { told result «record».new ≡ exported_walk set.now from tick index.now starts.now lengths.now arena.now «record».old }
{
    let Some(set) = lent_state::<RECORD_WORDS, FrozenSegmentCache>(set, record) else {
        return MALFORMED;
    };
    let areas = SegmentAreas {
        starts,
        lengths,
        arena,
    };
    let answer = set.next_physical_entry_at_tick(from, tick, index, areas);
    tell(answer, record)
}
