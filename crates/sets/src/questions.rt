// The questions that several calls ask of a state and of the lengths of the areas lent to it. Every
// number of a state is free: sums and products are made only after what bounds them was asked. C hands
// states in as plain numbers, so no invariant of a struct can say what a question told: the private
// functions that run after it require that.
ghost use Rattle.std.specs.Prelude.{◌≡◌, ◌*◌, ◌^◌, ◌≤◌, length, nat_le};
ghost use Rattle.hash_parts.specs.Duration.{ceil_div};
ghost use Rattle.records.specs.Record.{record_size};
ghost use Rattle.sets.specs.Questions.{arena_holds, ask_counts, ask_open, check_number, counts_fit, first_no, lifetime_fits, most_records, nanoseconds_fit, occupancy_fits, open_areas_hold, scratch_holds, segment_areas_hold, setting_fits, target_fits, tick_runs};

use crate::areas::MAX_ARENA_BYTES;
use hash_parts::duration::Duration;
use hash_parts::error::SegmentCacheBuildError;
use hash_parts::setting::{SegmentCacheConfig, SegmentExpiry};
use index::build::bucket_count;
use index::filter::negative_filter_words;
use index::segments::MAX_RECORD_SEGMENTS;
use index::view::SegmentAreas;
use index::word::BUCKET_SLOTS;
use records::record::encoded_record_bytes;

pub(crate) const MAX_RECORDS: usize = 1_048_576;

const MAX_SEGMENT_TARGET: usize = 100_663_296;

const NANOS_PER_SEC: u32 = 1_000_000_000;

#[tactic(auto, unfolding(crate::specs::Questions::nanoseconds_fit))]
pub(crate) fn nanoseconds_fit(expiry: SegmentExpiry) -> bool
    ensures { result ≡ nanoseconds_fit expiry }
{
    let SegmentExpiry::Relative16 { tick } = expiry else {
        return true;
    };
    tick.nanos < NANOS_PER_SEC
}

#[tactic(auto, unfolding(crate::specs::Questions::lifetime_fits))]
pub(crate) fn lifetime_fits(ttl: Option<Duration>) -> bool
    ensures { result ≡ lifetime_fits ttl }
{
    let Some(lifetime) = ttl else {
        return true;
    };
    lifetime.nanos < NANOS_PER_SEC
}

#[tactic(auto, unfolding(crate::specs::Questions::occupancy_fits))]
pub(crate) fn occupancy_fits(occupied: u8) -> bool
    ensures { result ≡ occupancy_fits occupied }
{
    (1..=7).contains(&occupied)
}

#[tactic(auto, unfolding(crate::specs::Questions::tick_runs))]
pub(crate) fn tick_runs(expiry: SegmentExpiry) -> bool
    ensures { result ≡ tick_runs expiry }
{
    let SegmentExpiry::Relative16 { tick } = expiry else {
        return true;
    };
    !tick.is_zero()
}

#[tactic(auto, unfolding(crate::specs::Questions::setting_fits))]
fn setting_fits(config: SegmentCacheConfig) -> bool
    ensures { result ≡ setting_fits config }
{
    let expiry = config.expiry;
    nanoseconds_fit(expiry) && occupancy_fits(config.target_occupied_slots) && tick_runs(expiry)
}

// Filter words for so many records.
pub(crate) fn filter_words_for(records: usize, bits: u8) -> usize
    requires { records ≤ most_records }
    ensures { result ≡ ceil_div (records * bits) 64 }
{
    negative_filter_words(records as u32, bits)
}

// Setting, records, buckets and filter words of a state.
#[tactic(auto, unfolding(crate::specs::Questions::counts_fit))]
pub(crate) fn counts_fit(
    config: SegmentCacheConfig,
    records: usize,
    buckets: usize,
    filter_words: usize,
) -> bool
    ensures { result ≡ counts_fit config records buckets filter_words }
{
    setting_fits(config)
        && records <= MAX_RECORDS
        && buckets == bucket_count(records, config.target_occupied_slots)
        && filter_words == filter_words_for(records, config.negative_filter_bits_per_entry)
}

// Whether so many bytes of keys, of values or of headers can belong to so many records.
pub(crate) fn bytes_fit(records: usize, bytes: usize) -> bool
    requires { records ≤ most_records }
    ensures { result ≡ nat_le bytes (records * 2 ^ 30) }
{
    bytes <= records * MAX_ARENA_BYTES
}

#[tactic(auto, unfolding(crate::specs::Questions::arena_holds))]
pub(crate) fn arena_holds(filled: usize, arena_len: usize) -> bool
    ensures { result ≡ arena_holds filled arena_len }
{
    filled <= arena_len && arena_len <= MAX_ARENA_BYTES
}

#[tactic(auto, unfolding(crate::specs::Questions::segment_areas_hold))]
pub(crate) fn segment_areas_hold(starts_len: usize, lengths_len: usize) -> bool
    ensures { result ≡ segment_areas_hold starts_len lengths_len }
{
    starts_len >= MAX_RECORD_SEGMENTS && lengths_len >= MAX_RECORD_SEGMENTS
}

#[tactic(auto, unfolding(crate::specs::Questions::target_fits))]
pub(crate) fn target_fits(target: usize) -> bool
    ensures { result ≡ target_fits target }
{
    (1..=MAX_SEGMENT_TARGET).contains(&target)
}

// The word layout needs no scratch.
#[tactic(auto, unfolding(crate::specs::Questions::scratch_holds))]
pub(crate) fn scratch_holds(config: SegmentCacheConfig, buckets: usize, scratch_len: usize) -> bool
    ensures { result ≡ scratch_holds config buckets scratch_len }
{
    !config.packed_bucket_index || buckets <= scratch_len
}

// The questions that open and area_words ask of a setting and a number of records.
#[tactic(auto, unfolding(crate::specs::Questions::ask_counts))]
pub(crate) fn check_counts(
    config: SegmentCacheConfig,
    entry_count: usize,
) -> Result<(), SegmentCacheBuildError>
    ensures { check_number result ≡ first_no (ask_counts config entry_count) }
{
    let expiry = config.expiry;
    if !nanoseconds_fit(expiry) {
        return Err(SegmentCacheBuildError::InvalidNanoseconds);
    }
    if !occupancy_fits(config.target_occupied_slots) {
        return Err(SegmentCacheBuildError::InvalidBucketOccupancy);
    }
    if !tick_runs(expiry) {
        return Err(SegmentCacheBuildError::ZeroExpiryTick);
    }
    if entry_count > MAX_RECORDS {
        return Err(SegmentCacheBuildError::CapacityOverflow);
    }
    Ok(())
}

// The questions of open.
#[tactic(auto, unfolding(crate::specs::Questions::ask_open, crate::specs::Questions::ask_counts))]
pub(crate) fn check_open(
    config: SegmentCacheConfig,
    entry_count: usize,
    index_len: usize,
    filter_len: usize,
    areas: SegmentAreas<'_>,
) -> Result<(), SegmentCacheBuildError>
    ensures { check_number result ≡ first_no (ask_open config entry_count index_len filter_len (length areas.entry.starts.now) (length areas.entry.lengths.now) (length areas.entry.arena.now)) }
{
    check_counts(config, entry_count)?;
    if !open_areas_hold(config, entry_count, index_len, filter_len) {
        return Err(SegmentCacheBuildError::AreaTooShort);
    }
    if !segment_areas_hold(areas.starts.len(), areas.lengths.len()) {
        return Err(SegmentCacheBuildError::AreaTooShort);
    }
    if areas.arena.len() > MAX_ARENA_BYTES {
        return Err(SegmentCacheBuildError::AreaTooShort);
    }
    Ok(())
}

// Whether index and filter hold the words of so many records.
#[tactic(auto, unfolding(crate::specs::Questions::open_areas_hold))]
pub(crate) fn open_areas_hold(
    config: SegmentCacheConfig,
    entry_count: usize,
    index_len: usize,
    filter_len: usize,
) -> bool
    requires { entry_count ≤ most_records }
    ensures { result ≡ open_areas_hold config entry_count index_len filter_len }
{
    bucket_count(entry_count, config.target_occupied_slots) <= index_len / BUCKET_SLOTS
        && filter_words_for(entry_count, config.negative_filter_bits_per_entry) <= filter_len
}

// Whether a record of these lengths fits so many bytes; one whose size passes 64 bits fits nowhere.
pub(crate) fn record_fits(
    expiry: SegmentExpiry,
    key_bytes: usize,
    value_bytes: usize,
    rest: usize,
) -> bool
    ensures { result ≡ nat_le (record_size expiry key_bytes value_bytes) rest }
{
    encoded_record_bytes(expiry, key_bytes, value_bytes).is_ok_and(|size| size <= rest)
}
