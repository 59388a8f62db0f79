// Settings, states, lifetimes and statistics from lent words. Words of a wrong number, a flag above 1
// and filter bits above 255 give nothing; nanoseconds and an occupancy that are too wide are capped,
// for their own questions to refuse.
ghost use Rattle.std.specs.Prelude.{◌≡◌, ◌≤◌, length};
ghost use Rattle.sets.specs.Questions.{check_number, first_no};
ghost use Rattle.capi.specs.Calls.{bare_reply};
ghost use Rattle.capi.specs.Records.{setting_fitting};
ghost use Rattle.capi.specs.Words.{ask_widths, builder_in, expiry_of, lifetime_in, nanos_capped, rebuild_in, set_in, setting_alone, setting_in, stats_in};

use crate::words::{
    BUILDER_WORDS, FromWords, REBUILD_WORDS, SET_WORDS, SETTING_WORDS, STATS_WORDS,
};
use hash_parts::duration::Duration;
use hash_parts::error::SegmentCacheBuildError;
use hash_parts::setting::{SegmentCacheConfig, SegmentExpiry};
use sets::builder::SegmentCacheBuilder;
use sets::cache::FrozenSegmentCache;
use sets::kept::KeptSegments;
use sets::rebuild::SharedSegmentCacheBuilder;
use sets::stats::SegmentCacheStats;

// A setting that is lent by itself.
#[tactic(auto, unfolding(crate::specs::Words::setting_among))]
impl FromWords for SegmentCacheConfig {
    ghost value_in = { setting_alone };

    fn from_words(words: &[u64]) -> Option<Self> {
        front_setting(<&[u64; SETTING_WORDS]>::try_from(words).ok()?)
    }
}

#[tactic(auto, unfolding(crate::specs::Words::builder_in, crate::specs::Words::setting_among))]
impl FromWords for SegmentCacheBuilder {
    ghost value_in = { builder_in };

    fn from_words(words: &[u64]) -> Option<Self> {
        let words = <&[u64; BUILDER_WORDS]>::try_from(words).ok()?;
        let config = front_setting(words)?;
        Some(SegmentCacheBuilder {
            config,
            expected_entries: words[6] as usize,
            inserted_entries: words[7] as usize,
            bucket_count: words[8] as usize,
            filter_words: words[9] as usize,
            filled: words[10] as usize,
            logical_key_bytes: words[11] as usize,
            logical_value_bytes: words[12] as usize,
        })
    }
}

#[tactic(auto, unfolding(crate::specs::Words::set_in, crate::specs::Words::setting_among))]
impl FromWords for FrozenSegmentCache {
    ghost value_in = { set_in };

    fn from_words(words: &[u64]) -> Option<Self> {
        let words = <&[u64; SET_WORDS]>::try_from(words).ok()?;
        let config = front_setting(words)?;
        Some(FrozenSegmentCache {
            config,
            entries: words[6] as usize,
            buckets: words[7] as usize,
            filter_words: words[8] as usize,
            segments: words[9] as usize,
            filled: words[10] as usize,
            record_bytes: words[11] as usize,
            logical_key_bytes: words[12] as usize,
            logical_value_bytes: words[13] as usize,
            record_header_bytes: words[14] as usize,
        })
    }
}

#[tactic(auto, unfolding(crate::specs::Words::rebuild_in, crate::specs::Words::setting_among))]
impl FromWords for SharedSegmentCacheBuilder {
    ghost value_in = { rebuild_in };

    fn from_words(words: &[u64]) -> Option<Self> {
        let words = <&[u64; REBUILD_WORDS]>::try_from(words).ok()?;
        let config = front_setting(words)?;
        let kept = KeptSegments {
            w0: words[10],
            w1: words[11],
            w2: words[12],
            w3: words[13],
        };
        Some(SharedSegmentCacheBuilder {
            config,
            expected_entries: words[6] as usize,
            inserted_entries: words[7] as usize,
            bucket_count: words[8] as usize,
            filter_words: words[9] as usize,
            kept,
            source_filled: words[14] as usize,
            copied_bytes: words[15] as usize,
            logical_key_bytes: words[16] as usize,
            logical_value_bytes: words[17] as usize,
            record_header_bytes: words[18] as usize,
            reused_entries: words[19] as usize,
            reused_record_bytes: words[20] as usize,
            source_now_tick: words[21],
        })
    }
}

// A lifetime: no words for never.
#[tactic(auto, unfolding(crate::specs::Words::lifetime_in))]
impl FromWords for Option<Duration> {
    ghost value_in = { lifetime_in };

    fn from_words(words: &[u64]) -> Option<Self> {
        match words {
            [] => Some(None),
            [secs, nanos] => Some(Some(Duration {
                secs: *secs,
                nanos: capped_nanos(*nanos),
            })),
            _ => None,
        }
    }
}

#[tactic(auto, unfolding(crate::specs::Words::stats_in))]
impl FromWords for SegmentCacheStats {
    ghost value_in = { stats_in };

    fn from_words(words: &[u64]) -> Option<Self> {
        let words = <&[u64; STATS_WORDS]>::try_from(words).ok()?;
        Some(SegmentCacheStats {
            entries: words[0] as usize,
            buckets: words[1] as usize,
            index_slots: words[2] as usize,
            index_bytes: words[3] as usize,
            record_bytes: words[4] as usize,
            logical_key_bytes: words[5] as usize,
            logical_value_bytes: words[6] as usize,
            record_header_bytes: words[7] as usize,
        })
    }
}

// The setting in the first six words.
#[tactic(auto, unfolding(crate::specs::Words::setting_in, crate::specs::Words::setting_form))]
fn front_setting(words: &[u64]) -> Option<SegmentCacheConfig>
    requires { 6 ≤ length words.now }
    ensures { result ≡ setting_in words.now }
{
    // Read before any is asked, so that one test asks all three.
    let (flag, packed, bits) = (words[0], words[4], words[5]);
    if flag > 1 || packed > 1 || bits > 255 {
        return None;
    }
    Some(SegmentCacheConfig {
        expiry: expiry_of(flag, words[1], capped_nanos(words[2])),
        // An occupancy beyond 8 bits stays too high.
        target_occupied_slots: u8::try_from(words[3]).unwrap_or(u8::MAX),
        packed_bucket_index: packed == 1,
        negative_filter_bits_per_entry: bits as u8,
    })
}

// Nanoseconds beyond 32 bits stay too many for a second.
fn capped_nanos(nanos: u64) -> u32
    ensures { result ≡ nanos_capped nanos }
{
    u32::try_from(nanos).unwrap_or(u32::MAX)
}

fn expiry_of(flag: u64, secs: u64, nanos: u32) -> SegmentExpiry
    ensures { result ≡ expiry_of flag secs nanos }
{
    if flag == 1 {
        let tick = Duration { secs, nanos };
        return SegmentExpiry::Relative16 { tick };
    }
    SegmentExpiry::None
}

// A setting that is lent by itself, with no word that is too wide for it.
#[tactic(auto, unfolding(crate::specs::Records::setting_fitting, crate::specs::Words::setting_among))]
pub(crate) fn fitting_setting(words: &[u64]) -> Result<SegmentCacheConfig, SegmentCacheBuildError>
    ensures { bare_reply result ≡ setting_fitting words.now }
{
    let Ok(words) = <&[u64; SETTING_WORDS]>::try_from(words) else {
        return Err(SegmentCacheBuildError::InvalidState);
    };
    let config = front_setting(words).ok_or(SegmentCacheBuildError::InvalidState)?;
    check_widths(words)?;
    Ok(config)
}

// What a setting's words are too wide for: question 2 or 3. Without expiry there is no tick.
#[tactic(auto, unfolding(crate::specs::Words::ask_widths))]
fn check_widths(words: &[u64; SETTING_WORDS]) -> Result<(), SegmentCacheBuildError>
    ensures { check_number result ≡ first_no (ask_widths words.now) }
{
    if words[0] == 1 && words[2] > u64::from(u32::MAX) {
        return Err(SegmentCacheBuildError::InvalidNanoseconds);
    }
    if words[3] > 255 {
        return Err(SegmentCacheBuildError::InvalidBucketOccupancy);
    }
    Ok(())
}
