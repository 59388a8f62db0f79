// Splitting the filled arena into segments that begin at records.
ghost use Rattle.std.specs.Prelude.{◌≡◌, ◌+◌, ◌-◌, ◌*◌, ◌<◌, ◌≤◌, min, [], ◌++◌, map, length, take, drop, if◌then◌else◌, slice_index};
ghost use Rattle.records.specs.Area.{over};
ghost use Rattle.index.specs.Word.{word_stored};
ghost use Rattle.index.specs.Segments.{counted, inside, lengths_of, locations_inside, most_segments, next_start, padded, segment_of, split, split_result, split_word, start_after, start_in, starts_at, starts_of};
ghost use Rattle.index.specs.SegmentStarts.{AreStarts};

use crate::build::clear_words;
use crate::word::{
    BUCKET_SLOTS, LOCATIONS, SEGMENT_BYTES, encode_index_word, index_location, index_tag,
};
use hash_parts::error::SegmentCacheBuildError;

// Starts are a slice lent to each call, and so each asks what they are: an array is a list of any length in a clause.
pub const MAX_RECORD_SEGMENTS: usize = 256;

// Above every location: where the search for the lowest begins, so also its answer where there is none.
const NO_START: u64 = LOCATIONS;

// Splits the records under an index. Where there would be more than 256 segments only the first 256
// starts are written. Areas that a call writes to stand one by one: no two calls write to the same.
pub fn split_record_segments(
    index: &mut [u64],
    buckets: usize,
    filled: usize,
    target: usize,
    starts: &mut [u64],
    lengths: &mut [u64],
) -> Result<usize, SegmentCacheBuildError>
    ensures { split_result result index.new starts.new lengths.new ≡ split index.old buckets filled target starts.old lengths.old }
{
    if index.len() / BUCKET_SLOTS < buckets {
        return Err(SegmentCacheBuildError::AreaTooShort);
    }
    if starts.len() < MAX_RECORD_SEGMENTS {
        return Err(SegmentCacheBuildError::AreaTooShort);
    }
    if lengths.len() < MAX_RECORD_SEGMENTS {
        return Err(SegmentCacheBuildError::AreaTooShort);
    }
    let words = &mut index[..BUCKET_SLOTS * buckets];
    let count = write_starts(words, filled, target, starts)?;
    let starts = &starts[..count];
    write_lengths(starts, filled, lengths);
    if filled > target {
        split_words(words, starts);
    }
    Ok(count)
}

// The lowest location of a record that is not below a bound, or NO_START.
pub fn next_start(index: &[u64], buckets: usize, bound: u64) -> u64
    ensures { result ≡ start_in index.now buckets bound }
{
    if index.len() / BUCKET_SLOTS < buckets {
        return NO_START;
    }
    lowest_start(&index[..BUCKET_SLOTS * buckets], bound)
}

fn lowest_start(words: &[u64], bound: u64) -> u64
    ensures { result ≡ next_start words.now bound }
{
    words
        .iter()
        .fold(NO_START, |lowest, word| lower_start(*word, bound, lowest))
}

// A word's location where it is a lower start than the lowest so far.
fn lower_start(word: u64, bound: u64, lowest: u64) -> u64
    ensures { result ≡ (if starts_at bound word then min (word_stored word - 1) lowest else lowest) }
{
    let stored = index_location(word);
    if stored <= bound {
        return lowest;
    }
    if stored > lowest {
        return lowest;
    }
    stored - 1
}

// Whether each occupied word names a location below the filled bytes.
pub fn locations_inside(index: &[u64], buckets: usize, filled: usize) -> bool
    ensures { result ≡ locations_inside index.now buckets filled }
{
    if index.len() / BUCKET_SLOTS < buckets {
        return false;
    }
    index[..BUCKET_SLOTS * buckets]
        .iter()
        .all(|word| location_inside(*word, filled))
}

// A stored location is one more than the location; of 0 less 1 is above every length.
fn location_inside(word: u64, filled: usize) -> bool
    ensures { result ≡ inside filled word }
{
    word == 0 || index_location(word).wrapping_sub(1) < filled as u64
}

// Sets the first 256 words to 0.
fn clear_segments(area: &mut [u64])
    requires { most_segments ≤ length area.old }
    ensures { area.new ≡ over (padded []) area.old }
{
    clear_words(area, MAX_RECORD_SEGMENTS);
}

// Writes the starts, and says how many there are; of 257 the first 256, and that there are too many. It
// goes from start to start until there is none, so the loop counts them.
fn write_starts(
    words: &[u64],
    filled: usize,
    target: usize,
    starts: &mut [u64],
) -> Result<usize, SegmentCacheBuildError>
    requires { most_segments ≤ length starts.old }
    ensures { (result ≡ counted (starts_of words.now filled target)) × (starts.new ≡ over (padded (starts_of words.now filled target)) starts.old) }
{
    clear_segments(starts);
    let mut count = 0;
    let mut next: u64 = 0;
    while next < NO_START {
        if count == MAX_RECORD_SEGMENTS {
            return Err(SegmentCacheBuildError::ArenaTooLarge);
        }
        starts[count] = next;
        count += 1;
        next = start_after(words, filled, target, next as usize);
    }
    Ok(count)
}

// The start after another: none where what is left is within the target, and none by a target of 0.
fn start_after(words: &[u64], filled: usize, target: usize, last: usize) -> u64
    ensures { result ≡ start_after words.now filled target last }
{
    if target == 0 {
        return NO_START;
    }
    if filled.saturating_sub(last) <= target {
        return NO_START;
    }
    lowest_start(words, (last + target) as u64)
}

fn write_lengths(starts: &[u64], filled: usize, lengths: &mut [u64])
    requires { AreStarts starts.now × (length starts.now ≤ most_segments) × (most_segments ≤ length lengths.old) }
    ensures { lengths.new ≡ over (padded (lengths_of filled starts.now)) lengths.old }
{
    clear_segments(lengths);
    let last = starts.len() - 1;
    for i in 0..last {
        lengths[i] = starts[i + 1] - starts[i];
    }
    lengths[last] = (filled as u64).saturating_sub(starts[last]);
}

// Splits the location of every word.
fn split_words(words: &mut [u64], starts: &[u64])
    requires { AreStarts starts.now × (length starts.now ≤ most_segments) }
    ensures { words.new ≡ map (split_word starts.now) words.old }
{
    for word in words {
        *word = split_word(*word, starts);
    }
}

fn split_word(word: u64, starts: &[u64]) -> u64
    requires { AreStarts starts.now × (length starts.now ≤ most_segments) }
    ensures { result ≡ split_word starts.now word }
{
    let stored = index_location(word);
    if stored == 0 {
        return word;
    }
    let location = stored - 1;
    let segment = find_segment(starts, location);
    let offset = location - starts[segment];
    encode_index_word(index_tag(word), (segment as u64) * SEGMENT_BYTES + offset)
}

// The last start that is not above a location. The first start is not above any.
fn find_segment(starts: &[u64], location: u64) -> usize
    requires { AreStarts starts.now }
    ensures { (result ≡ segment_of starts.now location) × (result < length starts.now) × (slice_index starts.now result ≤ location) }
{
    starts[1..].partition_point(|start| *start <= location)
}
