// The call of capi_push_reused for C, as a static library: its export calls the function of its name, with the same
// arguments and clauses.
#![tactic(auto)]

ghost use Rattle.std.specs.Prelude.{◌≡◌};
ghost use Rattle.capi.specs.Rebuilds.{exported_reused, reused_words};

// Location and header bytes are those of the record in the source; the two words of the place are
// slot and location in the rebuild.
#[unsafe(no_mangle)]
pub extern "C" fn segment_cache_push_reused(
    rebuild: &mut [u64],
    hash: u64,
    key: &[u8],
    value: &[u8],
    location: usize,
    header_bytes: usize,
    index: &mut [u64],
    filter: &mut [u64],
    starts: &[u64],
    lengths: &[u64],
    arena: &[u8],
    place: &mut [u64],
) -> u64
    ensures { reused_words result rebuild.new index.new filter.new place.new ≡ exported_reused rebuild.old hash key.now value.now location header_bytes index.old filter.old starts.now lengths.now arena.now place.old }
{
    capi_push_reused::segment_cache_push_reused(
        rebuild,
        hash,
        key,
        value,
        location,
        header_bytes,
        index,
        filter,
        starts,
        lengths,
        arena,
        place,
    )
}
