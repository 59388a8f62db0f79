// Opening and finishing a set, and the sizes of areas. C lends each area by itself, so each is an argument of its own.
ghost use Rattle.std.specs.Prelude.{◌≡◌};
ghost use Rattle.std.proofs.Common.{lit<};
ghost use Rattle.capi.specs.Calls.{area_numbers, exported_area_words, exported_finish, exported_open, finish_words, open_words, told};

use crate::answers::{lent_state, tell};
use crate::words::{BUILDER_WORDS, MALFORMED, SET_WORDS, ToWords};
use hash_parts::setting::SegmentCacheConfig;
use index::view::SegmentAreas;
use sets::areas::{AreaWords, area_words};
use sets::builder::SegmentCacheBuilder;

const AREAS: usize = 5;

#[unsafe(no_mangle)]
pub extern "C" fn segment_cache_builder_words() -> usize
    ensures { result ≡ 13 }
{
    BUILDER_WORDS
}

#[unsafe(no_mangle)]
pub extern "C" fn segment_cache_set_words() -> usize
    ensures { result ≡ 15 }
{
    SET_WORDS
}

#[tactic(auto, unfolding(crate::specs::Calls::exported_open))]
#[unsafe(no_mangle)]
pub extern "C" fn segment_cache_open(
    setting: &[u64],
    records: usize,
    builder: &mut [u64],
    index: &mut [u64],
    filter: &mut [u64],
    starts: &[u64],
    lengths: &[u64],
    arena: &[u8],
) -> u64
    ensures { open_words result builder.new index.new filter.new ≡ exported_open setting.now records builder.old index.old filter.old starts.now lengths.now arena.now }
{
    let Some(config) = lent_state::<BUILDER_WORDS, SegmentCacheConfig>(setting, builder) else {
        return MALFORMED;
    };
    let areas = SegmentAreas {
        starts,
        lengths,
        arena,
    };
    let answer = SegmentCacheBuilder::try_new(config, records, index, filter, areas);
    tell(answer, builder)
}

#[tactic(auto, using(crate::proofs::Replies::told_back), unfolding(crate::specs::Calls::exported_finish))]
#[unsafe(no_mangle)]
pub extern "C" fn segment_cache_finish(
    builder: &[u64],
    target: usize,
    index: &mut [u64],
    starts: &mut [u64],
    lengths: &mut [u64],
    scratch: &mut [u64],
    arena: &[u8],
    set: &mut [u64],
) -> u64
    ensures { finish_words result index.new starts.new lengths.new scratch.new set.new ≡ exported_finish builder.now target index.old starts.old lengths.old scratch.old arena.now set.old }
{
    let Some(state) = lent_state::<SET_WORDS, SegmentCacheBuilder>(builder, set) else {
        return MALFORMED;
    };
    let answer = state.finish(target, index, starts, lengths, scratch, arena);
    tell(answer, set)
}

// How many words the areas for so many records take: index, filter, starts, lengths, scratch.
#[tactic(auto, unfolding(crate::specs::Calls::exported_area_words))]
#[unsafe(no_mangle)]
pub extern "C" fn segment_cache_area_words(
    setting: &[u64],
    records: usize,
    words: &mut [u64],
) -> u64
    ensures { told result words.new ≡ exported_area_words setting.now records words.old }
{
    let Some(config) = lent_state::<AREAS, SegmentCacheConfig>(setting, words) else {
        return MALFORMED;
    };
    tell(area_words(config, records), words)
}

impl ToWords<AREAS> for AreaWords {
    ghost words_of = { area_numbers };

    ghost fits = { lit< tt };

    fn to_words(self) -> [u64; AREAS] {
        [
            self.index as u64,
            self.filter as u64,
            self.starts as u64,
            self.lengths as u64,
            self.scratch as u64,
        ]
    }
}
