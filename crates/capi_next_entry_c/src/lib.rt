// The call of capi_next_entry for C, as a static library: its export calls the function of its name, with the same
// arguments and clauses.
#![tactic(auto)]

ghost use Rattle.std.specs.Prelude.{◌≡◌};
ghost use Rattle.capi.specs.Calls.{exported_walk, told};

// A step of the walk: the first record from a slot on, in the words of segment_cache_probe.
#[unsafe(no_mangle)]
pub extern "C" fn segment_cache_next_entry(
    set: &[u64],
    from: usize,
    tick: u64,
    index: &[u64],
    starts: &[u64],
    lengths: &[u64],
    arena: &[u8],
    record: &mut [u64],
) -> u64
    ensures { told result «record».new ≡ exported_walk set.now from tick index.now starts.now lengths.now arena.now «record».old }
{
    capi_next_entry::segment_cache_next_entry(
        set, from, tick, index, starts, lengths, arena, record,
    )
}
