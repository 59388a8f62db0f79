// Opening and finishing a set, and the sizes of areas.
ghost use Rattle.std.specs.Prelude.{◌≡◌};
ghost use Rattle.capi.specs.Calls.{exported_area_words, exported_finish, exported_open, finish_words, open_words, told};

#[unsafe(no_mangle)]
pub extern "C" fn segment_cache_builder_words() -> usize
    ensures { result ≡ 13 }
{
    capi::build_calls::segment_cache_builder_words()
}

#[unsafe(no_mangle)]
pub extern "C" fn segment_cache_set_words() -> usize
    ensures { result ≡ 15 }
{
    capi::build_calls::segment_cache_set_words()
}

#[unsafe(no_mangle)]
pub extern "C" fn segment_cache_open(
    setting: &[u64],
    records: usize,
    builder: &mut [u64],
    index: &mut [u64],
    filter: &mut [u64],
    starts: &[u64],
    lengths: &[u64],
    arena: &[u8],
) -> u64
    ensures { open_words result builder.new index.new filter.new ≡ exported_open setting.now records builder.old index.old filter.old starts.now lengths.now arena.now }
{
    capi::build_calls::segment_cache_open(
        setting, records, builder, index, filter, starts, lengths, arena,
    )
}

#[unsafe(no_mangle)]
pub extern "C" fn segment_cache_finish(
    builder: &[u64],
    target: usize,
    index: &mut [u64],
    starts: &mut [u64],
    lengths: &mut [u64],
    scratch: &mut [u64],
    arena: &[u8],
    set: &mut [u64],
) -> u64
    ensures { finish_words result index.new starts.new lengths.new scratch.new set.new ≡ exported_finish builder.now target index.old starts.old lengths.old scratch.old arena.now set.old }
{
    capi::build_calls::segment_cache_finish(
        builder, target, index, starts, lengths, scratch, arena, set,
    )
}

// How many words the areas for so many records take: index, filter, starts, lengths, scratch.
#[unsafe(no_mangle)]
pub extern "C" fn segment_cache_area_words(
    setting: &[u64],
    records: usize,
    words: &mut [u64],
) -> u64
    ensures { told result words.new ≡ exported_area_words setting.now records words.old }
{
    capi::build_calls::segment_cache_area_words(setting, records, words)
}
