// One call for C in a library of its own, where nothing else calls what it calls: so the compiler makes one
// piece of code of it. C lends each area by itself, so each is an argument of its own.
#![tactic(auto)]

ghost use Rattle.std.specs.Prelude.{◌≡◌};
ghost use Rattle.capi.specs.Rebuilds.{exported_reused, reused_words};

use capi::answers::{PLACE_WORDS, lent_state, tell_push};
use capi::words::MALFORMED;
use index::view::SegmentAreas;
use sets::rebuild::{SegmentRecordLocation, SharedSegmentCacheBuilder};

// Location and header bytes are those of the record in the source; the two words of the place are
// slot and location in the rebuild.
#[tactic(auto, using(capi::proofs::Replies::rebuild_push_back), unfolding(capi::specs::Rebuilds::exported_reused, capi::specs::Words::rebuild_in, capi::specs::Words::setting_among))]
#[unsafe(no_mangle)]
pub extern "C" fn segment_cache_push_reused(
    rebuild: &mut [u64],
    hash: u64,
    key: &[u8],
    value: &[u8],
    location: usize,
    header_bytes: usize,
    index: &mut [u64],
    filter: &mut [u64],
    starts: &[u64],
    lengths: &[u64],
    arena: &[u8],
    place: &mut [u64],
) -> u64
    ensures { reused_words result rebuild.new index.new filter.new place.new ≡ exported_reused rebuild.old hash key.now value.now location header_bytes index.old filter.old starts.now lengths.now arena.now place.old }
{
    let Some(mut state) = lent_state::<PLACE_WORDS, SharedSegmentCacheBuilder>(rebuild, place)
    else {
        return MALFORMED;
    };
    let source = SegmentRecordLocation {
        location,
        header_bytes,
    };
    let areas = SegmentAreas {
        starts,
        lengths,
        arena,
    };
    let answer = state.push_reused(hash, key, value, source, index, filter, areas);
    tell_push(answer, state, rebuild, place)
}
