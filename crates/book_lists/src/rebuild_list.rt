// A whole list of calls with a rebuild: rebuild open of a finished set, a reused push, a copied push,
// rebuild finish, a lookup in the new set. Its contract is as in `build_list`.
ghost use Rattle.std.specs.Prelude.{◌≡◌, [], ◌∷◌};
ghost use Rattle.book.specs.Calls.{reopen, refinish};
ghost use Rattle.book.specs.World.{idle, answers};
ghost use Rattle.book.specs.Made.{areas_of, set_with, world_of};
ghost use Rattle.book_lists.specs.Gives.{copy_with, gives, lookup_with, reuse_with};

use crate::build_list::{ListAnswer, LookupArguments, PushArguments};
use book::calls::{make_copy, make_lookup, make_refinish, make_reopen, make_reuse};
use index::view::SegmentAreas;
use sets::cache::FrozenSegmentCache;
use sets::rebuild::SegmentRecordLocation;

// A record of a kept segment as a reused push is given it.
#[derive(Clone, Copy)]
pub(crate) struct ReuseArguments<'a> {
    pub hash: u64,
    pub key: &'a [u8],
    pub value: &'a [u8],
    pub source: SegmentRecordLocation,
}

// The list from rebuild open on; the source is any set, in areas of any content, which stand one by one as
// in `build_list`. A refused push leaves its record out; where rebuild open or rebuild finish is refused there is no second set to ask.
pub(crate) fn rebuild_and_ask(
    source: FrozenSegmentCache,
    source_index: &[u64],
    source_filter: &[u64],
    source_starts: &[u64],
    source_lengths: &[u64],
    entry_count: usize,
    copied_record_capacity: usize,
    used_source_segments: &[u8],
    source_now_tick: u64,
    reused: ReuseArguments<'_>,
    copied: PushArguments<'_>,
    asked: LookupArguments<'_>,
    index: &mut [u64],
    filter: &mut [u64],
    starts: &mut [u64],
    lengths: &mut [u64],
    scratch: &mut [u64],
    arena: &mut [u8],
) -> ListAnswer
    ensures { gives arena.new result ≡ answers (world_of arena.old idle (set_with source (areas_of source_index.now source_filter.now source_starts.now source_lengths.now) ∷ []) []) (reopen entry_count copied_record_capacity used_source_segments.now source_now_tick index.old filter.old starts.old lengths.old ∷ reuse_with reused.entry ∷ copy_with copied.entry ∷ refinish scratch.old ∷ lookup_with 1 asked.entry ∷ []) }
{
    let source_areas = SegmentAreas {
        starts: source_starts,
        lengths: source_lengths,
        arena,
    };
    let mut builder = make_reopen(
        source,
        source_index,
        source_filter,
        source_areas,
        entry_count,
        copied_record_capacity,
        used_source_segments,
        source_now_tick,
        index,
        filter,
        starts,
        lengths,
    )
    .ok()?;
    let areas = SegmentAreas {
        starts,
        lengths,
        arena,
    };
    let _ = make_reuse(
        &mut builder,
        reused.hash,
        reused.key,
        reused.value,
        reused.source,
        index,
        filter,
        areas,
    );
    let _ = make_copy(
        &mut builder,
        copied.hash,
        copied.key,
        copied.value,
        copied.ttl,
        index,
        filter,
        starts,
        lengths,
        arena,
    );
    let build = make_refinish(builder, index, filter, starts, lengths, scratch, arena).ok()?;
    let areas = SegmentAreas {
        starts,
        lengths,
        arena,
    };
    Some(make_lookup(
        build.cache,
        asked.hash,
        asked.key,
        asked.now_tick,
        index,
        filter,
        areas,
    ))
}
