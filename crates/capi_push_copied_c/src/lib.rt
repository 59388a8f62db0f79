// The call of capi_push_copied for C, as a static library: its export calls the function of its name, with the same
// arguments and clauses.
#![tactic(auto)]

ghost use Rattle.std.specs.Prelude.{◌≡◌};
ghost use Rattle.capi.specs.Calls.{push_words};
ghost use Rattle.capi.specs.Rebuilds.{exported_copied};

// The two words of the place: slot and location in the rebuild.
#[unsafe(no_mangle)]
pub extern "C" fn segment_cache_push_copied(
    rebuild: &mut [u64],
    hash: u64,
    key: &[u8],
    value: &[u8],
    lifetime: &[u64],
    index: &mut [u64],
    filter: &mut [u64],
    starts: &[u64],
    lengths: &[u64],
    arena: &mut [u8],
    place: &mut [u64],
) -> u64
    ensures { push_words result rebuild.new index.new filter.new arena.new place.new ≡ exported_copied rebuild.old hash key.now value.now lifetime.now index.old filter.old starts.now lengths.now arena.old place.old }
{
    capi_push_copied::segment_cache_push_copied(
        rebuild, hash, key, value, lifetime, index, filter, starts, lengths, arena, place,
    )
}
