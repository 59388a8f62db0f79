// The call of capi_push for C, as a static library: its export calls the function of its name, with the same
// arguments and clauses.
#![tactic(auto)]

ghost use Rattle.std.specs.Prelude.{◌≡◌};
ghost use Rattle.capi.specs.Calls.{exported_push, push_words};

// The two words of the place: slot and location.
#[unsafe(no_mangle)]
pub extern "C" fn segment_cache_push(
    builder: &mut [u64],
    hash: u64,
    key: &[u8],
    value: &[u8],
    lifetime: &[u64],
    index: &mut [u64],
    filter: &mut [u64],
    arena: &mut [u8],
    place: &mut [u64],
) -> u64
    ensures { push_words result builder.new index.new filter.new arena.new place.new ≡ exported_push builder.old hash key.now value.now lifetime.now index.old filter.old arena.old place.old }
{
    capi_push::segment_cache_push(
        builder, hash, key, value, lifetime, index, filter, arena, place,
    )
}
