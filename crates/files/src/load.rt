// Loading a file into areas that are lent for the set.
ghost use Rattle.std.specs.Prelude.{◌≡◌, ◌*◌, ◌/◌, ◌≤◌, length};
ghost use Rattle.records.specs.Area.{over};
ghost use Rattle.index.specs.Packed.{words_of};
ghost use Rattle.index.specs.Segments.{most_segments, padded};
ghost use Rattle.sets.specs.Questions.{first_no, most_arena_bytes};
ghost use Rattle.files.specs.Blocks.{content_of};
ghost use Rattle.files.specs.Contents.{ask_file, file_set, starts_by, sum, unmarked_index};
ghost use Rattle.files.specs.Load.{after_load, load_result, needs_answer, needs_reply};

use crate::blocks::{BlockKind, content_of};
use crate::content::plan_file;
use crate::copies::{UNMARKED_CONTROL, UNMARKED_WORD, WHOLE, WORD_BYTES, take_words};
use hash_parts::error::SegmentCacheBuildError;
use index::segments::MAX_RECORD_SEGMENTS;
use index::word::BUCKET_SLOTS;
use records::record::copy_bytes;
use sets::cache::FrozenSegmentCache;

// How long the areas must be that a file is loaded into: words of 64 bits, and bytes.
#[derive(Clone, Copy, Debug, PartialEq, Eq)]
pub struct FileNeeds {
    pub index: usize,
    pub filter: usize,
    pub starts: usize,
    pub lengths: usize,
    pub arena: usize,
}

// The least lengths that a load takes. An area may be longer.
#[tactic(auto, using(crate::proofs::Loading::asked_set, crate::proofs::Loading::few_buckets, crate::proofs::Loading::needs_is, crate::proofs::Loading::asked_refused, crate::proofs::Loading::needs_refused))]
pub fn file_needs(file: &[u8]) -> Result<FileNeeds, SegmentCacheBuildError>
    ensures { needs_reply result ≡ needs_answer file.now }
{
    let set = plan_file(file)?;
    Ok(FileNeeds {
        index: set.buckets * BUCKET_SLOTS,
        filter: set.filter_words,
        starts: MAX_RECORD_SEGMENTS,
        lengths: MAX_RECORD_SEGMENTS,
        arena: set.filled,
    })
}

// Loads a file: its words and bytes go to the front of the areas, marks cleared. Each area is lent to be
// written, and so by itself: a struct of areas lends them to be read.
#[tactic(auto, using(crate::proofs::Loading::asked_set, crate::proofs::Loading::asked_refused, crate::proofs::Loading::load_refused))]
pub fn load_file(
    file: &[u8],
    index: &mut [u64],
    filter: &mut [u64],
    starts: &mut [u64],
    lengths: &mut [u64],
    arena: &mut [u8],
) -> Result<FrozenSegmentCache, SegmentCacheBuildError>
    ensures { load_result result index.new filter.new starts.new lengths.new arena.new ≡ after_load file.now index.old filter.old starts.old lengths.old arena.old }
{
    let set = plan_file(file)?;
    load_set(set, file, index, filter, starts, lengths, arena)
}

// The areas are asked, then written.
fn load_set(
    set: FrozenSegmentCache,
    file: &[u8],
    index: &mut [u64],
    filter: &mut [u64],
    starts: &mut [u64],
    lengths: &mut [u64],
    arena: &mut [u8],
) -> Result<FrozenSegmentCache, SegmentCacheBuildError>
    requires { (set ≡ file_set file.now) × (first_no (ask_file file.now) ≡ 0) }
    ensures { load_result result index.new filter.new starts.new lengths.new arena.new ≡ after_load file.now index.old filter.old starts.old lengths.old arena.old }
{
    if !set.lookup_areas_hold(
        index.len(),
        filter.len(),
        starts.len(),
        lengths.len(),
        arena.len(),
    ) {
        return Err(SegmentCacheBuildError::AreaTooShort);
    }
    let packed = set.config.packed_bucket_index;
    load_index(
        content_of(file, BlockKind::Index),
        packed,
        set.buckets,
        index,
    );
    let filter_bytes = content_of(file, BlockKind::Filter);
    take_words(filter_bytes, WHOLE, &mut filter[..set.filter_words]);
    load_lengths(content_of(file, BlockKind::Lengths), lengths);
    load_starts(&lengths[..set.segments], starts);
    let records = content_of(file, BlockKind::Segments);
    copy_bytes(&mut arena[..records.len()], records);
    Ok(set)
}

// In the packed layout the marks stand in the control words, the first of the index.
fn load_index(words: &[u8], packed: bool, buckets: usize, index: &mut [u64])
    requires { (length words.now ≡ 64 * buckets) × (8 * buckets ≤ length index.old) }
    ensures { index.new ≡ over (unmarked_index packed buckets (words_of (8 * buckets) words.now)) index.old }
{
    let slots = buckets * BUCKET_SLOTS;
    if !packed {
        take_words(words, UNMARKED_WORD, &mut index[..slots]);
        return;
    }
    take_words(words, UNMARKED_CONTROL, &mut index[..buckets]);
    let references = &words[buckets * WORD_BYTES..];
    take_words(references, WHOLE, &mut index[buckets..slots]);
}

fn load_lengths(from: &[u8], lengths: &mut [u64])
    requires { (length from.now / 8 ≤ most_segments) × (most_segments ≤ length lengths.old) }
    ensures { lengths.new ≡ over (padded (words_of (length from.now / 8) from.now)) lengths.old }
{
    let count = from.len() / WORD_BYTES;
    take_words(from, WHOLE, &mut lengths[..count]);
    lengths[count..MAX_RECORD_SEGMENTS].fill(0);
}

// Each segment starts where the one before ends; the words past the last are 0. By index: nothing is known
// of words that a zip lends to be written.
fn load_starts(lengths: &[u64], starts: &mut [u64])
    requires { (length lengths.now ≤ most_segments) × (most_segments ≤ length starts.old) × (sum lengths.now ≤ most_arena_bytes) }
    ensures { starts.new ≡ over (padded (starts_by 0 lengths.now)) starts.old }
{
    let mut next = 0;
    for (i, length) in lengths.iter().enumerate() {
        starts[i] = next;
        next += *length;
    }
    starts[lengths.len()..MAX_RECORD_SEGMENTS].fill(0);
}
