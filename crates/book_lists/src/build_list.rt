// A whole list of calls as a program makes it: open, two pushes, finish, a lookup. The contract says,
// for every input, that the answer is the one in `answers` of this list, from nothing on.
ghost use Rattle.std.specs.Prelude.{◌≡◌, [], ◌∷◌};
ghost use Rattle.book.specs.Calls.{opening, finish};
ghost use Rattle.book.specs.World.{unopened, answers};
ghost use Rattle.book_lists.specs.Gives.{gives, lookup_with, push_with};

use book::calls::{make_finish, make_lookup, make_open, make_push};
use hash_parts::duration::Duration;
use hash_parts::error::SegmentCacheBuildError;
use hash_parts::setting::SegmentCacheConfig;
use index::view::SegmentAreas;
use records::record::Span;

// A record as a push is given it.
#[derive(Clone, Copy)]
pub(crate) struct PushArguments<'a> {
    pub hash: u64,
    pub key: &'a [u8],
    pub value: &'a [u8],
    pub ttl: Option<Duration>,
}

// What a lookup is asked for.
#[derive(Clone, Copy)]
pub(crate) struct LookupArguments<'a> {
    pub hash: u64,
    pub key: &'a [u8],
    pub now_tick: u64,
}

// What the lookup of a list answers, if there is such a set; a value's bytes are what `value_slice`
// hands out for the span.
pub(crate) type ListAnswer = Option<Result<Option<Span>, SegmentCacheBuildError>>;

// The list from open on, with any arguments and with areas of any content, which stand one by one: some
// calls write to an area that others read. A refused push leaves its record out; where open or finish is
// refused there is no set to ask.
pub(crate) fn build_and_ask(
    config: SegmentCacheConfig,
    entry_count: usize,
    first: PushArguments<'_>,
    second: PushArguments<'_>,
    target: usize,
    asked: LookupArguments<'_>,
    index: &mut [u64],
    filter: &mut [u64],
    starts: &mut [u64],
    lengths: &mut [u64],
    scratch: &mut [u64],
    arena: &mut [u8],
) -> ListAnswer
    ensures { gives arena.new result ≡ answers (unopened arena.old) (opening config entry_count arena.old index.old filter.old starts.old lengths.old ∷ push_with first.entry ∷ push_with second.entry ∷ finish target scratch.old ∷ lookup_with 0 asked.entry ∷ []) }
{
    let areas = SegmentAreas {
        starts,
        lengths,
        arena,
    };
    let mut builder = make_open(config, entry_count, index, filter, areas).ok()?;
    let _ = make_push(
        &mut builder,
        first.hash,
        first.key,
        first.value,
        first.ttl,
        index,
        filter,
        starts,
        lengths,
        arena,
    );
    let _ = make_push(
        &mut builder,
        second.hash,
        second.key,
        second.value,
        second.ttl,
        index,
        filter,
        starts,
        lengths,
        arena,
    );
    let cache = make_finish(
        builder, target, index, filter, starts, lengths, scratch, arena,
    )
    .ok()?;
    let areas = SegmentAreas {
        starts,
        lengths,
        arena,
    };
    Some(make_lookup(
        cache,
        asked.hash,
        asked.key,
        asked.now_tick,
        index,
        filter,
        areas,
    ))
}
