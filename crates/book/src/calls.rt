// Each call of a list, as code. A function makes one call of crates/sets or crates/files, and its first
// clause is that call's contract. The second says, for every input, that the call is this step of the
// world, whatever else stands in the world: what the call was answered and what its areas then hold is
// what `step` leaves, and accepted is what `step` accepts. So the definitions that contracts cite and
// those that the claim on lists is made of are held together by proof. Areas that a call does not take
// are lent all the same, for the contract to name them. The arguments are those of the call itself, in its order.
ghost use Rattle.std.specs.Prelude.{◌≡◌, is_ok};
ghost use Rattle.sets.specs.Answers.{probe_reply, walk_reply, stats_reply};
ghost use Rattle.sets.specs.Build.{open_result, after_open, push_result, after_push, finish_result, after_finish};
ghost use Rattle.sets.specs.Lookup.{get_result, after_get, after_peek, take_result, after_take, probe_answer, walk_answer, stats_answer};
ghost use Rattle.sets.specs.Rebuild.{rebuild_open_result, after_rebuild_open, reused_result, after_reused, copied_result, after_copied, rebuild_finish_result, after_rebuild_finish};
ghost use Rattle.files.specs.Load.{load_result, after_load};
ghost use Rattle.files.specs.Write.{write_result, after_write};
ghost use Rattle.book.specs.Calls.{opening, push, finish, lookup, peek, clear, probe, walk, stats, reopen, reuse, copy, refinish, write, load};
ghost use Rattle.book.specs.World.{building, rebuilding, World, step, answered};
ghost use Rattle.book.specs.Made.{areas_of, areas_with, set_lent, left, Wherever, WhereNewest, WhereOpen, open_left, push_left, finish_left, set_left, get_gives, reopen_left, repush_left, refinish_left, WhereWritten, write_left, load_left};

use files::load::load_file;
use files::write::write_file;
use hash_parts::duration::Duration;
use hash_parts::error::SegmentCacheBuildError;
use hash_parts::setting::SegmentCacheConfig;
use index::view::SegmentAreas;
use records::record::Span;
use sets::builder::{PushedRecord, SegmentCacheBuilder};
use sets::cache::{FrozenSegmentCache, SegmentBaseRecord};
use sets::rebuild::{SegmentRecordLocation, SharedSegmentCacheBuild, SharedSegmentCacheBuilder};
use sets::stats::SegmentCacheStats;

// Open, in any world.
#[tactic(auto, using(crate::proofs::Making::make_open))]
pub fn make_open(
    config: SegmentCacheConfig,
    entry_count: usize,
    index: &mut [u64],
    filter: &mut [u64],
    areas: SegmentAreas<'_>,
) -> Result<SegmentCacheBuilder, SegmentCacheBuildError>
    ensures filter_after { open_result result index.new filter.new ≡ after_open config entry_count index.old filter.old areas.entry.starts.now areas.entry.lengths.now areas.entry.arena.now }
    ensures result_after { (w : World) → open_left w areas.entry.arena.now (areas_with index.new filter.new areas.entry) result ≡ step w (opening config entry_count areas.entry.arena.now index.old filter.old areas.entry.starts.now areas.entry.lengths.now) }
{
    SegmentCacheBuilder::try_new(config, entry_count, index, filter, areas)
}

// Push, whatever sets are finished. The segment areas are only named.
#[tactic(auto, using(crate::proofs::Making::make_push))]
pub fn make_push(
    builder: &mut SegmentCacheBuilder,
    hash: u64,
    key: &[u8],
    value: &[u8],
    ttl: Option<Duration>,
    index: &mut [u64],
    filter: &mut [u64],
    starts: &[u64],
    lengths: &[u64],
    arena: &mut [u8],
) -> Result<PushedRecord, SegmentCacheBuildError>
    ensures arena_after { push_result result builder.new index.new filter.new arena.new ≡ after_push builder.old hash key.now value.now ttl index.old filter.old arena.old }
    ensures result_after { WhereOpen (building builder.old (areas_of index.old filter.old starts.now lengths.now)) arena.old (λ w. push_left w.sets w.files arena.new (areas_of index.new filter.new starts.now lengths.now) builder.new result ≡ step w (push key.now value.now hash ttl)) }
{
    builder.push(hash, key, value, ttl, index, filter, arena)
}

// Finish, whatever sets are finished. The filter is only named.
#[tactic(auto, using(crate::proofs::Making::make_finish))]
pub fn make_finish(
    builder: SegmentCacheBuilder,
    target: usize,
    index: &mut [u64],
    filter: &[u64],
    starts: &mut [u64],
    lengths: &mut [u64],
    scratch: &mut [u64],
    arena: &[u8],
) -> Result<FrozenSegmentCache, SegmentCacheBuildError>
    ensures scratch_after { finish_result result builder index.new starts.new lengths.new scratch.new ≡ after_finish builder target index.old starts.old lengths.old scratch.old arena.now }
    ensures result_after { WhereOpen (building builder (areas_of index.old filter.now starts.old lengths.old)) arena.now (λ w. finish_left w.sets w.files arena.now (areas_of index.new filter.now starts.new lengths.new) builder result ≡ step w (finish target scratch.old)) }
{
    builder.finish(target, index, starts, lengths, scratch, arena)
}

// Lookup, in a set anywhere among others; what it gives is what the world answers.
#[tactic(auto, using(crate::proofs::Making::make_lookup, crate::proofs::Making::lookup_gives))]
pub fn make_lookup(
    cache: FrozenSegmentCache,
    hash: u64,
    key: &[u8],
    now_tick: u64,
    index: &mut [u64],
    filter: &[u64],
    areas: SegmentAreas<'_>,
) -> Result<Option<Span>, SegmentCacheBuildError>
    ensures index_after { get_result result index.new ≡ after_get cache hash key.now now_tick index.old filter.now areas.entry.starts.now areas.entry.lengths.now areas.entry.arena.now }
    ensures wherever { Wherever (set_lent cache index.old filter.now areas.entry) areas.entry.arena.now (λ w j. set_left w j (set_lent cache index.new filter.now areas.entry) (is_ok result) ≡ step w (lookup j key.now hash now_tick)) }
    ensures answer { Wherever (set_lent cache index.old filter.now areas.entry) areas.entry.arena.now (λ w j. get_gives areas.entry.arena.now result ≡ answered w (lookup j key.now hash now_tick)) }
{
    cache.get_at_tick(hash, key, now_tick, index, filter, areas)
}

// Peek.
#[tactic(auto, using(crate::proofs::Making::make_peek, crate::proofs::Making::peek_gives))]
pub fn make_peek(
    cache: FrozenSegmentCache,
    hash: u64,
    key: &[u8],
    now_tick: u64,
    index: &[u64],
    filter: &[u64],
    areas: SegmentAreas<'_>,
) -> Result<Option<Span>, SegmentCacheBuildError>
    ensures index_value { get_result result index.now ≡ after_peek cache hash key.now now_tick index.now filter.now areas.entry.starts.now areas.entry.lengths.now areas.entry.arena.now }
    ensures wherever { Wherever (set_lent cache index.now filter.now areas.entry) areas.entry.arena.now (λ w j. set_left w j (set_lent cache index.now filter.now areas.entry) (is_ok result) ≡ step w (peek j key.now hash now_tick)) }
    ensures answer { Wherever (set_lent cache index.now filter.now areas.entry) areas.entry.arena.now (λ w j. get_gives areas.entry.arena.now result ≡ answered w (peek j key.now hash now_tick)) }
{
    cache.peek_at_tick(hash, key, now_tick, index, filter, areas)
}

// Mark clearing.
#[tactic(auto, using(crate::proofs::Making::make_clear))]
pub fn make_clear(
    cache: FrozenSegmentCache,
    hash: u64,
    key: &[u8],
    index: &mut [u64],
    filter: &[u64],
    areas: SegmentAreas<'_>,
) -> Result<bool, SegmentCacheBuildError>
    ensures index_after { take_result result index.new ≡ after_take cache hash key.now index.old filter.now areas.entry.starts.now areas.entry.lengths.now areas.entry.arena.now }
    ensures wherever { Wherever (set_lent cache index.old filter.now areas.entry) areas.entry.arena.now (λ w j. set_left w j (set_lent cache index.new filter.now areas.entry) (is_ok result) ≡ step w (clear j key.now hash)) }
{
    cache.take_accessed(hash, key, index, filter, areas)
}

// Probe.
#[tactic(auto, using(crate::proofs::Making::make_probe))]
pub fn make_probe(
    cache: FrozenSegmentCache,
    hash: u64,
    key: &[u8],
    now_tick: u64,
    index: &[u64],
    filter: &[u64],
    areas: SegmentAreas<'_>,
) -> Result<Option<SegmentBaseRecord>, SegmentCacheBuildError>
    ensures result_value { probe_reply result ≡ probe_answer cache hash key.now now_tick index.now filter.now areas.entry.starts.now areas.entry.lengths.now areas.entry.arena.now }
    ensures wherever { Wherever (set_lent cache index.now filter.now areas.entry) areas.entry.arena.now (λ w j. left (is_ok result) w ≡ step w (probe j key.now hash now_tick)) }
{
    cache.probe_hashed_at_tick(hash, key, now_tick, index, filter, areas)
}

// A step of the walk. The filter is only named.
#[tactic(auto, using(crate::proofs::Making::make_walk))]
pub fn make_walk(
    cache: FrozenSegmentCache,
    from: usize,
    now_tick: u64,
    index: &[u64],
    filter: &[u64],
    areas: SegmentAreas<'_>,
) -> Result<Option<SegmentBaseRecord>, SegmentCacheBuildError>
    ensures result_value { walk_reply result ≡ walk_answer cache from now_tick index.now areas.entry.starts.now areas.entry.lengths.now areas.entry.arena.now }
    ensures wherever { Wherever (set_lent cache index.now filter.now areas.entry) areas.entry.arena.now (λ w j. left (is_ok result) w ≡ step w (walk j from now_tick)) }
{
    cache.next_physical_entry_at_tick(from, now_tick, index, areas)
}

// Statistics. All areas are only named.
#[tactic(auto, using(crate::proofs::Making::make_stats))]
pub fn make_stats(
    cache: FrozenSegmentCache,
    index: &[u64],
    filter: &[u64],
    areas: SegmentAreas<'_>,
) -> Result<SegmentCacheStats, SegmentCacheBuildError>
    ensures result_value { stats_reply result ≡ stats_answer cache }
    ensures wherever { Wherever (set_lent cache index.now filter.now areas.entry) areas.entry.arena.now (λ w j. left (is_ok result) w ≡ step w (stats j)) }
{
    cache.stats()
}

// Rebuild open, of the newest set, whatever is open. The source's index and filter are only named.
#[tactic(auto, using(crate::proofs::Making::make_reopen))]
pub fn make_reopen(
    source: FrozenSegmentCache,
    source_index: &[u64],
    source_filter: &[u64],
    source_areas: SegmentAreas<'_>,
    entry_count: usize,
    copied_record_capacity: usize,
    used_source_segments: &[u8],
    source_now_tick: u64,
    index: &mut [u64],
    filter: &mut [u64],
    starts: &mut [u64],
    lengths: &mut [u64],
) -> Result<SharedSegmentCacheBuilder, SegmentCacheBuildError>
    ensures lengths_after { rebuild_open_result result source index.new filter.new starts.new lengths.new ≡ after_rebuild_open source source_areas.entry.starts.now source_areas.entry.lengths.now source_areas.entry.arena.now entry_count copied_record_capacity used_source_segments.now source_now_tick index.old filter.old starts.old lengths.old }
    ensures where_newest { WhereNewest (set_lent source source_index.now source_filter.now source_areas.entry) source_areas.entry.arena.now (λ w. reopen_left w (areas_of index.new filter.new starts.new lengths.new) result ≡ step w (reopen entry_count copied_record_capacity used_source_segments.now source_now_tick index.old filter.old starts.old lengths.old)) }
{
    SharedSegmentCacheBuilder::try_new(
        source,
        source_areas,
        entry_count,
        copied_record_capacity,
        used_source_segments,
        source_now_tick,
        index,
        filter,
        starts,
        lengths,
    )
}

// Reused push. It has the form of `make_push`, but each is the place where one call's contract stands: one function for both
// would take that contract from its caller.
#[tactic(auto, using(crate::proofs::Making::make_reuse))]
pub fn make_reuse(
    builder: &mut SharedSegmentCacheBuilder,
    hash: u64,
    key: &[u8],
    value: &[u8],
    source: SegmentRecordLocation,
    index: &mut [u64],
    filter: &mut [u64],
    areas: SegmentAreas<'_>,
) -> Result<PushedRecord, SegmentCacheBuildError>
    ensures filter_after { reused_result result builder.new index.new filter.new ≡ after_reused builder.old hash key.now value.now source index.old filter.old areas.entry.starts.now areas.entry.lengths.now areas.entry.arena.now }
    ensures result_after { WhereOpen (rebuilding builder.old (areas_with index.old filter.old areas.entry)) areas.entry.arena.now (λ w. repush_left w.sets w.files areas.entry.arena.now (areas_with index.new filter.new areas.entry) builder.new result ≡ step w (reuse key.now value.now hash source.location source.header_bytes)) }
{
    builder.push_reused(hash, key, value, source, index, filter, areas)
}

// Copied push.
#[tactic(auto, using(crate::proofs::Making::make_copy))]
pub fn make_copy(
    builder: &mut SharedSegmentCacheBuilder,
    hash: u64,
    key: &[u8],
    value: &[u8],
    ttl: Option<Duration>,
    index: &mut [u64],
    filter: &mut [u64],
    starts: &[u64],
    lengths: &[u64],
    arena: &mut [u8],
) -> Result<PushedRecord, SegmentCacheBuildError>
    ensures arena_after { copied_result result builder.new index.new filter.new arena.new ≡ after_copied builder.old hash key.now value.now ttl index.old filter.old starts.now lengths.now arena.old }
    ensures result_after { WhereOpen (rebuilding builder.old (areas_of index.old filter.old starts.now lengths.now)) arena.old (λ w. repush_left w.sets w.files arena.new (areas_of index.new filter.new starts.now lengths.now) builder.new result ≡ step w (copy key.now value.now hash ttl)) }
{
    builder.push_copied(hash, key, value, ttl, index, filter, starts, lengths, arena)
}

// Rebuild finish. The filter is only named.
#[tactic(auto, using(crate::proofs::Making::make_refinish))]
pub fn make_refinish(
    builder: SharedSegmentCacheBuilder,
    index: &mut [u64],
    filter: &[u64],
    starts: &mut [u64],
    lengths: &mut [u64],
    scratch: &mut [u64],
    arena: &[u8],
) -> Result<SharedSegmentCacheBuild, SegmentCacheBuildError>
    ensures scratch_after { rebuild_finish_result result builder index.new starts.new lengths.new scratch.new ≡ after_rebuild_finish builder index.old starts.old lengths.old scratch.old arena.now }
    ensures result_after { WhereOpen (rebuilding builder (areas_of index.old filter.now starts.old lengths.old)) arena.now (λ w. refinish_left w.sets w.files arena.now (areas_of index.new filter.now starts.new lengths.new) builder result ≡ step w (refinish scratch.old)) }
{
    builder.finish(index, starts, lengths, scratch, arena)
}

// A set is written as a file, to the front of an area.
#[tactic(auto, using(crate::proofs::Making::make_write))]
pub fn make_write(
    cache: FrozenSegmentCache,
    index: &[u64],
    filter: &[u64],
    areas: SegmentAreas<'_>,
    file: &mut [u8],
) -> Result<usize, SegmentCacheBuildError>
    ensures file_after { write_result result file.new ≡ after_write cache index.now filter.now areas.entry.starts.now areas.entry.lengths.now areas.entry.arena.now file.old }
    ensures wherever { Wherever (set_lent cache index.now filter.now areas.entry) areas.entry.arena.now (λ w j. write_left w file.new result ≡ step w (write j file.old)) }
{
    write_file(cache, index, filter, areas, file)
}

// A file that was written is loaded, in any world.
#[tactic(auto, using(crate::proofs::Making::make_load))]
pub fn make_load(
    file: &[u8],
    index: &mut [u64],
    filter: &mut [u64],
    starts: &mut [u64],
    lengths: &mut [u64],
    arena: &mut [u8],
) -> Result<FrozenSegmentCache, SegmentCacheBuildError>
    ensures arena_after { load_result result index.new filter.new starts.new lengths.new arena.new ≡ after_load file.now index.old filter.old starts.old lengths.old arena.old }
    ensures where_written { WhereWritten file.now (λ w i. load_left w arena.new (areas_of index.new filter.new starts.new lengths.new) result ≡ step w (load i arena.old index.old filter.old starts.old lengths.old)) }
{
    load_file(file, index, filter, starts, lengths, arena)
}
