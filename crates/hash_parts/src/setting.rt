// The setting of a set. Each change takes the old setting and hands back the new one.
ghost use Rattle.std.specs.Prelude.{◌≡◌, ◌≤◌, true, false};
ghost use Rattle.hash_parts.specs.Setting.{started, without_expiry, with_relative_expiry, with_occupancy, with_packed_index, with_filter_bits, bytes_per_record, expiry_numbers, setting_numbers};

use crate::duration::Duration;

const DEFAULT_TARGET_OCCUPIED_SLOTS: u8 = 7;

// Whether records keep a deadline, and the length of the ticks that it counts: the Rust's own public type.
#[derive(Clone, Copy, Debug, PartialEq, Eq)]
pub enum SegmentExpiry {
    // Records keep no deadline.
    None,
    // Each record keeps a deadline of 16 bits, in ticks from the start of the set.
    Relative16 { tick: Duration },
}

impl SegmentExpiry {
    pub const fn bytes_per_record(self) -> usize
        ensures { (result ≡ bytes_per_record self) × (result ≤ 2) }
    {
        match self {
            SegmentExpiry::None => 0,
            SegmentExpiry::Relative16 { tick: _ } => 2,
        }
    }

    // One, and the tick's seconds and nanoseconds; three zeros where records keep no deadline.
    fn numbers(self) -> [u64; 3]
        ensures { result ≡ expiry_numbers self }
    {
        match self {
            SegmentExpiry::None => [0; 3],
            SegmentExpiry::Relative16 { tick } => [1, tick.secs, u64::from(tick.nanos)],
        }
    }
}

#[derive(Clone, Copy, Debug, PartialEq, Eq)]
pub struct SegmentCacheConfig {
    pub expiry: SegmentExpiry,
    pub target_occupied_slots: u8,
    pub packed_bucket_index: bool,
    pub negative_filter_bits_per_entry: u8,
}

impl SegmentCacheConfig {
    pub const fn without_expiry() -> Self
        ensures { result ≡ without_expiry }
    {
        Self::started(SegmentExpiry::None)
    }

    pub const fn with_relative_expiry(tick: Duration) -> Self
        ensures { result ≡ with_relative_expiry tick }
    {
        Self::started(SegmentExpiry::Relative16 { tick })
    }

    // The start values with this expiry.
    const fn started(expiry: SegmentExpiry) -> Self
        ensures { result ≡ started expiry }
    {
        Self {
            expiry,
            target_occupied_slots: DEFAULT_TARGET_OCCUPIED_SLOTS,
            packed_bucket_index: true,
            negative_filter_bits_per_entry: 0,
        }
    }

    // Lower occupancy spends index words to shorten the walks.
    pub const fn with_target_bucket_occupancy(mut self, occupied: u8) -> Self
        ensures { result ≡ with_occupancy self occupied }
    {
        self.target_occupied_slots = occupied;
        self
    }

    // One control word and eight references of seven bytes to a bucket.
    pub const fn with_packed_bucket_index(mut self) -> Self
        ensures { result ≡ with_packed_index self true }
    {
        self.packed_bucket_index = true;
        self
    }

    // One word to a slot.
    pub const fn with_atomic_word_index(mut self) -> Self
        ensures { result ≡ with_packed_index self false }
    {
        self.packed_bucket_index = false;
        self
    }

    // Zero bits: no filter.
    pub const fn with_negative_filter_bits_per_entry(mut self, bits: u8) -> Self
        ensures { result ≡ with_filter_bits self bits }
    {
        self.negative_filter_bits_per_entry = bits;
        self
    }

    pub const fn expiry(self) -> SegmentExpiry
        ensures { result ≡ self.expiry }
    {
        self.expiry
    }

    pub const fn target_bucket_occupancy(self) -> u8
        ensures { result ≡ self.target_occupied_slots }
    {
        self.target_occupied_slots
    }

    pub const fn negative_filter_bits_per_entry(self) -> u8
        ensures { result ≡ self.negative_filter_bits_per_entry }
    {
        self.negative_filter_bits_per_entry
    }

    // The setting as a file keeps it and C holds it.
    pub fn numbers(self) -> [u64; 6]
        ensures { result ≡ setting_numbers self }
    {
        let [expiry_on, tick_secs, tick_nanos] = self.expiry.numbers();
        [
            expiry_on,
            tick_secs,
            tick_nanos,
            u64::from(self.target_occupied_slots),
            u64::from(self.packed_bucket_index),
            u64::from(self.negative_filter_bits_per_entry),
        ]
    }
}

impl Default for SegmentCacheConfig {
    ghost is_default = { λ config. config ≡ without_expiry };

    fn default() -> Self {
        Self::without_expiry()
    }
}
