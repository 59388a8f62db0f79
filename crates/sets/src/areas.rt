// How large the areas must be that are lent for so many records, and sums of their words.
ghost use Rattle.std.specs.Prelude.{◌≡◌, ◌%◌, ◌^◌, length};
ghost use Rattle.sets.specs.Areas.{area_words_for, area_words_reply};
ghost use Rattle.sets.specs.Rebuild.{sum_of};

use crate::questions::{check_counts, filter_words_for};
use hash_parts::error::SegmentCacheBuildError;
use hash_parts::setting::SegmentCacheConfig;
use index::build::bucket_count;
use index::segments::MAX_RECORD_SEGMENTS;
use index::word::BUCKET_SLOTS;

// No arena is longer.
pub const MAX_ARENA_BYTES: usize = 1_073_741_824;

// Words of 64 bits.
#[derive(Clone, Copy, Debug, PartialEq, Eq)]
pub struct AreaWords {
    pub index: usize,
    pub filter: usize,
    pub starts: usize,
    pub lengths: usize,
    // For finish alone.
    pub scratch: usize,
}

// The least lengths that open, finish and the rebuild calls take. An area may be longer.
#[tactic(auto, using(crate::proofs::Decides::decided_refused, index::proofs::Buckets::buckets_few), unfolding(crate::specs::Areas::area_words_for, crate::specs::Questions::ask_counts, crate::specs::Questions::occupancy_fits))]
pub fn area_words(
    config: SegmentCacheConfig,
    entry_count: usize,
) -> Result<AreaWords, SegmentCacheBuildError>
    ensures { area_words_reply result ≡ area_words_for config entry_count }
{
    check_counts(config, entry_count)?;
    let buckets = bucket_count(entry_count, config.target_occupied_slots);
    let scratch = if config.packed_bucket_index {
        buckets
    } else {
        0
    };
    Ok(AreaWords {
        index: buckets * BUCKET_SLOTS,
        filter: filter_words_for(entry_count, config.negative_filter_bits_per_entry),
        starts: MAX_RECORD_SEGMENTS,
        lengths: MAX_RECORD_SEGMENTS,
        scratch,
    })
}

// The sum of an area's words. They are free numbers: it wraps at 64 bits.
#[tactic(auto, unfolding(crate::specs::Rebuild::sum_of))]
pub fn sum_of(words: &[u64]) -> usize
    ensures { result ≡ sum_of (length words.now) words.now % 2 ^ 64 }
{
    let mut sum: usize = 0;
    for &word in words {
        sum = sum.wrapping_add(word as usize);
    }
    sum
}
