// One call for C in a library of its own, where nothing else calls what it calls: so the compiler makes one
// piece of code of it. For that capi_get, capi_peek and capi_take_accessed have like bodies, of other methods: a function of
// all would have four callers.
// C lends each area by itself, so each is an argument of its own.
#![tactic(auto)]

ghost use Rattle.std.specs.Prelude.{◌≡◌};
ghost use Rattle.capi.specs.Calls.{exported_probe, told};

use capi::answers::{RECORD_WORDS, lent_state, tell};
use capi::words::MALFORMED;
use index::view::SegmentAreas;
use sets::cache::FrozenSegmentCache;

// The twelve words of a record: 1, slot, location, bytes before the key, place and length of key
// and value, what is left of its time, and its end; or twelve zeros.
#[tactic(auto, unfolding(capi::specs::Calls::exported_probe))]
#[unsafe(no_mangle)]
pub extern "C" fn segment_cache_probe(
    set: &[u64],
    hash: u64,
    key: &[u8],
    tick: u64,
    index: &[u64],
    filter: &[u64],
    starts: &[u64],
    lengths: &[u64],
    arena: &[u8],
    record: &mut [u64],
) -> u64
    ensures { told result «record».new ≡ exported_probe set.now hash key.now tick index.now filter.now starts.now lengths.now arena.now «record».old }
{
    let Some(set) = lent_state::<RECORD_WORDS, FrozenSegmentCache>(set, record) else {
        return MALFORMED;
    };
    let areas = SegmentAreas {
        starts,
        lengths,
        arena,
    };
    let answer = set.probe_hashed_at_tick(hash, key, tick, index, filter, areas);
    tell(answer, record)
}
