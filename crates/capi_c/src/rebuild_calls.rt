// Opening and finishing a rebuild of a set.
ghost use Rattle.std.specs.Prelude.{◌≡◌};
ghost use Rattle.capi.specs.Rebuilds.{exported_rebuild_finish, exported_rebuild_open, rebuild_finish_words, rebuild_open_words};

#[unsafe(no_mangle)]
pub extern "C" fn segment_cache_rebuild_words() -> usize
    ensures { result ≡ 22 }
{
    capi::rebuild_calls::segment_cache_rebuild_words()
}

#[unsafe(no_mangle)]
pub extern "C" fn segment_cache_rebuild_open(
    set: &[u64],
    source_starts: &[u64],
    source_lengths: &[u64],
    arena: &[u8],
    records: usize,
    copied_record_capacity: usize,
    used_source_segments: &[u8],
    source_now_tick: u64,
    rebuild: &mut [u64],
    index: &mut [u64],
    filter: &mut [u64],
    starts: &mut [u64],
    lengths: &mut [u64],
) -> u64
    ensures { rebuild_open_words result rebuild.new index.new filter.new starts.new lengths.new ≡ exported_rebuild_open set.now source_starts.now source_lengths.now arena.now records copied_record_capacity used_source_segments.now source_now_tick rebuild.old index.old filter.old starts.old lengths.old }
{
    capi::rebuild_calls::segment_cache_rebuild_open(
        set,
        source_starts,
        source_lengths,
        arena,
        records,
        copied_record_capacity,
        used_source_segments,
        source_now_tick,
        rebuild,
        index,
        filter,
        starts,
        lengths,
    )
}

#[unsafe(no_mangle)]
pub extern "C" fn segment_cache_rebuild_finish(
    rebuild: &[u64],
    index: &mut [u64],
    starts: &mut [u64],
    lengths: &mut [u64],
    scratch: &mut [u64],
    arena: &[u8],
    set: &mut [u64],
    totals: &mut [u64],
) -> u64
    ensures { rebuild_finish_words result index.new starts.new lengths.new scratch.new set.new totals.new ≡ exported_rebuild_finish rebuild.now index.old starts.old lengths.old scratch.old arena.now set.old totals.old }
{
    capi::rebuild_calls::segment_cache_rebuild_finish(
        rebuild, index, starts, lengths, scratch, arena, set, totals,
    )
}
