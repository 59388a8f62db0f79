// The call of capi_peek for C, as a static library: its export calls the function of its name, with the same
// arguments and clauses.
#![tactic(auto)]

ghost use Rattle.std.specs.Prelude.{◌≡◌};
ghost use Rattle.capi.specs.Calls.{exported_peek, told};

// A lookup with no mark set, in the words of segment_cache_get.
#[unsafe(no_mangle)]
pub extern "C" fn segment_cache_peek(
    set: &[u64],
    hash: u64,
    key: &[u8],
    tick: u64,
    index: &[u64],
    filter: &[u64],
    starts: &[u64],
    lengths: &[u64],
    arena: &[u8],
    span: &mut [u64],
) -> u64
    ensures { told result span.new ≡ exported_peek set.now hash key.now tick index.now filter.now starts.now lengths.now arena.now span.old }
{
    capi_peek::segment_cache_peek(
        set, hash, key, tick, index, filter, starts, lengths, arena, span,
    )
}
