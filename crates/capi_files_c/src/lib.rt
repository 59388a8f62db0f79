// The calls of capi_files for C, as a static library: each export is one call of the function of its name, with the same clauses.
#![tactic(auto)]

ghost use Rattle.std.specs.Prelude.{◌≡◌};
ghost use Rattle.capi.specs.Calls.{told};
ghost use Rattle.capi_files.specs.Files.{exported_file_bytes, exported_file_needs, exported_load_file, exported_write_file, load_words, write_words};

#[unsafe(no_mangle)]
pub extern "C" fn segment_cache_file_bytes(
    set: &[u64],
    starts: &[u64],
    lengths: &[u64],
    bytes: &mut [u64],
) -> u64
    ensures { told result bytes.new ≡ exported_file_bytes set.now starts.now lengths.now bytes.old }
{
    capi_files::segment_cache_file_bytes(set, starts, lengths, bytes)
}

// Writes a set to the front of the file area, and the file's length to the word.
#[unsafe(no_mangle)]
pub extern "C" fn segment_cache_write_file(
    set: &[u64],
    index: &[u64],
    filter: &[u64],
    starts: &[u64],
    lengths: &[u64],
    arena: &[u8],
    file: &mut [u8],
    bytes: &mut [u64],
) -> u64
    ensures { write_words result file.new bytes.new ≡ exported_write_file set.now index.now filter.now starts.now lengths.now arena.now file.old bytes.old }
{
    capi_files::segment_cache_write_file(set, index, filter, starts, lengths, arena, file, bytes)
}

// The five words: index, filter, starts, lengths, and the arena's bytes.
#[unsafe(no_mangle)]
pub extern "C" fn segment_cache_file_needs(file: &[u8], needs: &mut [u64]) -> u64
    ensures { told result needs.new ≡ exported_file_needs file.now needs.old }
{
    capi_files::segment_cache_file_needs(file, needs)
}

// Loads a file into the areas, and stores the set's state to the words.
#[unsafe(no_mangle)]
pub extern "C" fn segment_cache_load_file(
    file: &[u8],
    index: &mut [u64],
    filter: &mut [u64],
    starts: &mut [u64],
    lengths: &mut [u64],
    arena: &mut [u8],
    set: &mut [u64],
) -> u64
    ensures { load_words result index.new filter.new starts.new lengths.new arena.new set.new ≡ exported_load_file file.now index.old filter.old starts.old lengths.old arena.old set.old }
{
    capi_files::segment_cache_load_file(file, index, filter, starts, lengths, arena, set)
}
