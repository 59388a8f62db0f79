// One call for C in a library of its own, where nothing else calls what it calls: so the compiler makes one
// piece of code of it. C lends each area by itself, so each is an argument of its own.
#![tactic(auto)]

ghost use Rattle.std.specs.Prelude.{◌≡◌};
ghost use Rattle.capi.specs.Calls.{exported_push, push_words};

use capi::answers::{PLACE_WORDS, lent_state, tell_push};
use capi::words::{FromWords, MALFORMED};
use hash_parts::duration::Duration;
use sets::builder::SegmentCacheBuilder;

// The two words of the place: slot and location.
#[tactic(auto, using(capi::proofs::Replies::push_back), unfolding(capi::specs::Calls::exported_push, capi::specs::Words::builder_in, capi::specs::Words::setting_among))]
#[unsafe(no_mangle)]
pub extern "C" fn segment_cache_push(
    builder: &mut [u64],
    hash: u64,
    key: &[u8],
    value: &[u8],
    lifetime: &[u64],
    index: &mut [u64],
    filter: &mut [u64],
    arena: &mut [u8],
    place: &mut [u64],
) -> u64
    ensures { push_words result builder.new index.new filter.new arena.new place.new ≡ exported_push builder.old hash key.now value.now lifetime.now index.old filter.old arena.old place.old }
{
    let Some(mut state) = lent_state::<PLACE_WORDS, SegmentCacheBuilder>(builder, place) else {
        return MALFORMED;
    };
    let Some(ttl) = Option::<Duration>::from_words(lifetime) else {
        return MALFORMED;
    };
    let answer = state.push(hash, key, value, ttl, index, filter, arena);
    tell_push(answer, state, builder, place)
}
