// The numbers of kind 1, and the set that they tell.
ghost use Rattle.std.specs.Prelude.{◌≡◌, ◌≢◌, ◌^◌, ◌<◌, MatchOption, get_or, length, take};
ghost use Rattle.files.specs.Blocks.{content_of};
ghost use Rattle.files.specs.Contents.{expiry_in, field, file_set, setting_in, sum, tick_fits, widths};
ghost use Rattle.files.specs.Kinds.{count_place};
ghost use Rattle.files.specs.Plan.{flags_fit};

use crate::blocks::{BlockKind, content_of};
use crate::copies::{WORD_BYTES, number_of};
use hash_parts::duration::Duration;
use hash_parts::setting::{SegmentCacheConfig, SegmentExpiry};
use index::build::bucket_count;
use index::filter::negative_filter_words;
use sets::cache::FrozenSegmentCache;

// The numbers of kind 1, in their order.
#[derive(Clone, Copy, Debug, PartialEq, Eq)]
enum Count {
    ExpiryOn,
    TickSeconds,
    TickNanoseconds,
    Occupancy,
    Packed,
    FilterBits,
    Records,
    KeyBytes,
    ValueBytes,
    HeaderBytes,
}

impl Count {
    // The byte at which the number begins, and how many it has: beside WIDTHS, so that no sum is made for a place.
    fn place(self) -> (usize, usize)
        ensures { (result.0 ≡ sum (take (count_place self) widths)) × (result.1 ≡ get_or widths (count_place self) 0) }
    {
        match self {
            Count::ExpiryOn => (0, 1),
            Count::TickSeconds => (1, 8),
            Count::TickNanoseconds => (9, 4),
            Count::Occupancy => (13, 1),
            Count::Packed => (14, 1),
            Count::FilterBits => (15, 1),
            Count::Records => (16, 4),
            Count::KeyBytes => (20, 8),
            Count::ValueBytes => (28, 8),
            Count::HeaderBytes => (36, 8),
        }
    }
}

// Bytes of each of them, and of all.
pub(crate) const WIDTHS: [usize; 10] = [1, 8, 4, 1, 1, 1, 4, 8, 8, 8];

pub(crate) const COUNT_BYTES: usize = 44;

// A file whose block of counts has its length, so that each of them can be read.
#[derive(Clone, Copy)]
pub(crate) struct Counts<'a> {
    pub(crate) file: &'a [u8],
    ghost whole: { length (content_of 0 file.now) ≡ 44 },
}

impl<'a> Counts<'a> {
    pub(crate) fn of(file: &'a [u8]) -> Option<Self>
        ensures { MatchOption result (length (content_of 0 file.now) ≢ 44) (λ counts. counts.file.now ≡ file.now) }
    {
        if content_of(file, BlockKind::Counts).len() != COUNT_BYTES {
            return None;
        }
        Some(Counts { file })
    }

    fn number(self, count: Count) -> u64
        ensures { (result ≡ field (count_place count) self.entry.file.now) × (result < 256 ^ get_or widths (count_place count) 0) }
    {
        let (at, width) = count.place();
        number_of(&content_of(self.file, BlockKind::Counts)[at..at + width])
    }

    #[tactic(auto, unfolding(crate::specs::Plan::flags_fit))]
    pub(crate) fn flags_fit(self) -> bool
        ensures { result ≡ flags_fit self.entry.file.now }
    {
        self.number(Count::ExpiryOn) <= 1 && self.number(Count::Packed) <= 1 && self.tick_fits()
    }

    // With expiry off both tick fields are zero.
    fn tick_fits(self) -> bool
        ensures { result ≡ tick_fits self.entry.file.now }
    {
        self.number(Count::ExpiryOn) != 0
            || self.number(Count::TickSeconds) == 0 && self.number(Count::TickNanoseconds) == 0
    }

    fn expiry(self) -> SegmentExpiry
        ensures { result ≡ expiry_in self.entry.file.now }
    {
        if self.number(Count::ExpiryOn) != 1 {
            return SegmentExpiry::None;
        }
        let secs = self.number(Count::TickSeconds);
        let nanos = self.number(Count::TickNanoseconds) as u32;
        let tick = Duration { secs, nanos };
        SegmentExpiry::Relative16 { tick }
    }

    fn setting(self) -> SegmentCacheConfig
        ensures { result ≡ setting_in self.entry.file.now }
    {
        SegmentCacheConfig {
            expiry: self.expiry(),
            target_occupied_slots: self.number(Count::Occupancy) as u8,
            packed_bucket_index: self.number(Count::Packed) == 1,
            negative_filter_bits_per_entry: self.number(Count::FilterBits) as u8,
        }
    }

    // The set that the file tells of.
    #[tactic(auto, using(crate::proofs::Told::set_is))]
    pub(crate) fn set(self) -> FrozenSegmentCache
        ensures { result ≡ file_set self.entry.file.now }
    {
        let config = self.setting();
        let entries = self.number(Count::Records);
        let bytes = content_of(self.file, BlockKind::Segments).len();
        FrozenSegmentCache {
            config,
            entries: entries as usize,
            buckets: bucket_count(entries as usize, config.target_occupied_slots),
            filter_words: negative_filter_words(
                entries as u32,
                config.negative_filter_bits_per_entry,
            ),
            segments: content_of(self.file, BlockKind::Lengths).len() / WORD_BYTES,
            filled: bytes,
            record_bytes: bytes,
            logical_key_bytes: self.number(Count::KeyBytes) as usize,
            logical_value_bytes: self.number(Count::ValueBytes) as usize,
            record_header_bytes: self.number(Count::HeaderBytes) as usize,
        }
    }
}
