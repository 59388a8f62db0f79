// Settings, states and statistics as words.
ghost use Rattle.std.specs.Prelude.{◌≡◌};
ghost use Rattle.std.proofs.Common.{lit<};
ghost use Rattle.capi.specs.Words.{builder_words, rebuild_words, set_words, stats_words};

use crate::words::{BUILDER_WORDS, REBUILD_WORDS, SET_WORDS, SETTING_WORDS, STATS_WORDS, ToWords};
use sets::builder::SegmentCacheBuilder;
use sets::cache::FrozenSegmentCache;
use sets::rebuild::SharedSegmentCacheBuilder;
use sets::stats::SegmentCacheStats;

impl ToWords<BUILDER_WORDS> for SegmentCacheBuilder {
    ghost words_of = { builder_words };

    ghost fits = { lit< tt };

    fn to_words(self) -> [u64; BUILDER_WORDS] {
        let mut words = [0; BUILDER_WORDS];
        words[..SETTING_WORDS].copy_from_slice(&self.config.numbers());
        words[SETTING_WORDS..].copy_from_slice(&[
            self.expected_entries as u64,
            self.inserted_entries as u64,
            self.bucket_count as u64,
            self.filter_words as u64,
            self.filled as u64,
            self.logical_key_bytes as u64,
            self.logical_value_bytes as u64,
        ]);
        words
    }
}

impl ToWords<SET_WORDS> for FrozenSegmentCache {
    ghost words_of = { set_words };

    ghost fits = { lit< tt };

    fn to_words(self) -> [u64; SET_WORDS] {
        let mut words = [0; SET_WORDS];
        words[..SETTING_WORDS].copy_from_slice(&self.config.numbers());
        words[SETTING_WORDS..].copy_from_slice(&[
            self.entries as u64,
            self.buckets as u64,
            self.filter_words as u64,
            self.segments as u64,
            self.filled as u64,
            self.record_bytes as u64,
            self.logical_key_bytes as u64,
            self.logical_value_bytes as u64,
            self.record_header_bytes as u64,
        ]);
        words
    }
}

impl ToWords<REBUILD_WORDS> for SharedSegmentCacheBuilder {
    ghost words_of = { rebuild_words };

    ghost fits = { lit< tt };

    fn to_words(self) -> [u64; REBUILD_WORDS] {
        let mut words = [0; REBUILD_WORDS];
        words[..SETTING_WORDS].copy_from_slice(&self.config.numbers());
        words[SETTING_WORDS..].copy_from_slice(&[
            self.expected_entries as u64,
            self.inserted_entries as u64,
            self.bucket_count as u64,
            self.filter_words as u64,
            self.kept.w0,
            self.kept.w1,
            self.kept.w2,
            self.kept.w3,
            self.source_filled as u64,
            self.copied_bytes as u64,
            self.logical_key_bytes as u64,
            self.logical_value_bytes as u64,
            self.record_header_bytes as u64,
            self.reused_entries as u64,
            self.reused_record_bytes as u64,
            self.source_now_tick,
        ]);
        words
    }
}

impl ToWords<STATS_WORDS> for SegmentCacheStats {
    ghost words_of = { stats_words };

    ghost fits = { lit< tt };

    fn to_words(self) -> [u64; STATS_WORDS] {
        [
            self.entries as u64,
            self.buckets as u64,
            self.index_slots as u64,
            self.index_bytes as u64,
            self.record_bytes as u64,
            self.logical_key_bytes as u64,
            self.logical_value_bytes as u64,
            self.record_header_bytes as u64,
        ]
    }
}
