// What a set takes up.
ghost use Rattle.std.specs.Prelude.{◌≡◌, ◌+◌, ◌-◌, ◌%◌, ◌^◌};
ghost use Rattle.sets.specs.Stats.{load_of};

#[derive(Clone, Copy, Debug, PartialEq, Eq)]
pub struct SegmentCacheStats {
    // Records.
    pub entries: usize,
    // Buckets of eight slots.
    pub buckets: usize,
    pub index_slots: usize,
    // Bytes of index and filter.
    pub index_bytes: usize,
    // Bytes of the set's segments.
    pub record_bytes: usize,
    pub logical_key_bytes: usize,
    pub logical_value_bytes: usize,
    // Bytes of the records that are neither key nor value.
    pub record_header_bytes: usize,
}

impl SegmentCacheStats {
    // Index and records. Sums of free numbers wrap at 64 bits.
    pub fn modeled_retained_bytes(self) -> usize
        ensures { result ≡ (self.index_bytes + self.record_bytes) % 2 ^ 64 }
    {
        self.index_bytes.wrapping_add(self.record_bytes)
    }

    // What is retained beyond keys and values.
    pub fn modeled_overhead_bytes(self) -> usize
        ensures { result ≡ (self.index_bytes + self.record_bytes) % 2 ^ 64 - (self.logical_key_bytes + self.logical_value_bytes) % 2 ^ 64 }
    {
        let logical = self
            .logical_key_bytes
            .wrapping_add(self.logical_value_bytes);
        self.modeled_retained_bytes().saturating_sub(logical)
    }

    // Occupied slots in basis points; 10,000 where they pass 16 bits.
    #[tactic(auto, unfolding(crate::specs::Stats::load_of))]
    pub fn index_load_bps(self) -> u16
        ensures { result ≡ load_of self.entries self.index_slots }
    {
        if self.index_slots == 0 {
            return 0;
        }
        let basis_points = self.entries.saturating_mul(10_000) / self.index_slots;
        u16::try_from(basis_points).unwrap_or(10_000)
    }
}
