// The call of capi_probe for C, as a static library: its export calls the function of its name, with the same
// arguments and clauses.
#![tactic(auto)]

ghost use Rattle.std.specs.Prelude.{◌≡◌};
ghost use Rattle.capi.specs.Calls.{exported_probe, told};

// The twelve words of a record: 1, slot, location, bytes before the key, place and length of key
// and value, what is left of its time, and its end; or twelve zeros.
#[unsafe(no_mangle)]
pub extern "C" fn segment_cache_probe(
    set: &[u64],
    hash: u64,
    key: &[u8],
    tick: u64,
    index: &[u64],
    filter: &[u64],
    starts: &[u64],
    lengths: &[u64],
    arena: &[u8],
    record: &mut [u64],
) -> u64
    ensures { told result «record».new ≡ exported_probe set.now hash key.now tick index.now filter.now starts.now lengths.now arena.now «record».old }
{
    capi_probe::segment_cache_probe(
        set, hash, key, tick, index, filter, starts, lengths, arena, record,
    )
}
