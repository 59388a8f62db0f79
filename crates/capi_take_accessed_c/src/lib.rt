// The call of capi_take_accessed for C, as a static library: its export calls the function of its name, with the same
// arguments and clauses.
#![tactic(auto)]

ghost use Rattle.std.specs.Prelude.{◌≡◌};
ghost use Rattle.capi.specs.Calls.{exported_take, index_told};

// The word: 1 where the mark was set, else 0.
#[unsafe(no_mangle)]
pub extern "C" fn segment_cache_take_accessed(
    set: &[u64],
    hash: u64,
    key: &[u8],
    index: &mut [u64],
    filter: &[u64],
    starts: &[u64],
    lengths: &[u64],
    arena: &[u8],
    accessed: &mut [u64],
) -> u64
    ensures { index_told result index.new accessed.new ≡ exported_take set.now hash key.now index.old filter.now starts.now lengths.now arena.now accessed.old }
{
    capi_take_accessed::segment_cache_take_accessed(
        set, hash, key, index, filter, starts, lengths, arena, accessed,
    )
}
