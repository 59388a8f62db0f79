// The call of capi_get for C, as a static library: its export calls the function of its name, with the same
// arguments and clauses.
#![tactic(auto)]

ghost use Rattle.std.specs.Prelude.{◌≡◌};
ghost use Rattle.capi.specs.Calls.{exported_get, index_told};

// The three words of the span: 1 and the value's place and length in the arena, or three zeros.
#[unsafe(no_mangle)]
pub extern "C" fn segment_cache_get(
    set: &[u64],
    hash: u64,
    key: &[u8],
    tick: u64,
    index: &mut [u64],
    filter: &[u64],
    starts: &[u64],
    lengths: &[u64],
    arena: &[u8],
    span: &mut [u64],
) -> u64
    ensures { index_told result index.new span.new ≡ exported_get set.now hash key.now tick index.old filter.now starts.now lengths.now arena.now span.old }
{
    capi_get::segment_cache_get(
        set, hash, key, tick, index, filter, starts, lengths, arena, span,
    )
}
