// The questions of a file, and the set that it holds.
ghost use Rattle.std.specs.Prelude.{cond, ◌≡◌, ◌*◌, ◌/◌, ◌<◌, Some, None, eqb, length};
ghost use Rattle.index.specs.Packed.{words_of};
ghost use Rattle.files.specs.Contents.{content_fits, file_set, sum};
ghost use Rattle.files.specs.Plan.{blocks_fit, file_asked, plan_reply};

use crate::blocks::{BlockKind, content_of, frames_well, kinds_in_order};
use crate::copies::{WORD_BYTES, number_of};
use crate::counts::Counts;
use hash_parts::error::SegmentCacheBuildError;
use sets::areas::MAX_ARENA_BYTES;
use sets::cache::FrozenSegmentCache;

// A bucket's eight words in the index block.
pub(crate) const BUCKET_BYTES: usize = 64;

// The questions of a file, each over the whole of it; and the set that it holds, as it will be once loaded.
#[tactic(auto, unfolding(crate::specs::Plan::file_asked, crate::specs::Contents::ask_file))]
pub(crate) fn plan_file(file: &[u8]) -> Result<FrozenSegmentCache, SegmentCacheBuildError>
    ensures { plan_reply result ≡ file_asked file.now }
{
    if !frames_well(file) {
        return Err(SegmentCacheBuildError::FileFraming);
    }
    if !kinds_in_order(file) {
        return Err(SegmentCacheBuildError::FileKinds);
    }
    set_in(file).ok_or(SegmentCacheBuildError::FileContent)
}

// The set that a file tells of, where its content fits: its own numbers are asked as a finished set's are.
#[tactic(auto, using(crate::proofs::Told::content_is))]
fn set_in(file: &[u8]) -> Option<FrozenSegmentCache>
    ensures { result ≡ cond (content_fits file.now) (Some (file_set file.now)) None }
{
    let counts = Counts::of(file)?;
    let set = counts.set();
    let fits = counts.flags_fit() && set.fits() && blocks_fit(file, set.buckets, set.filter_words);
    fits.then_some(set)
}

// Whether the blocks' lengths fit the counts, and the segments' lengths add up.
#[tactic(auto, unfolding(crate::specs::Plan::blocks_fit))]
fn blocks_fit(file: &[u8], buckets: usize, filter_words: usize) -> bool
    ensures { result ≡ blocks_fit buckets filter_words file.now }
{
    let lengths = content_of(file, BlockKind::Lengths);
    let index = content_of(file, BlockKind::Index).len();
    let filter = content_of(file, BlockKind::Filter).len();
    let bytes = content_of(file, BlockKind::Segments).len();
    lengths.len() % WORD_BYTES == 0
        && is_count_of(index, buckets, BUCKET_BYTES)
        && is_count_of(filter, filter_words, WORD_BYTES)
        && bytes <= MAX_ARENA_BYTES
        && lengths_add_up(lengths, bytes)
}

// Whether so many bytes are a count of pieces of a size. No product wraps.
fn is_count_of(bytes: usize, count: usize, size: usize) -> bool
    ensures { result ≡ eqb bytes (size * count) }
{
    size.checked_mul(count) == Some(bytes)
}

// Whether the words add up to so many bytes. What is left of the bytes is counted down: no sum wraps.
fn lengths_add_up(lengths: &[u8], bytes: usize) -> bool
    ensures { result ≡ eqb (sum (words_of (length lengths.now / 8) lengths.now)) bytes }
{
    let mut left = bytes;
    for word in lengths.chunks_exact(WORD_BYTES) {
        let length = number_of(word) as usize;
        if length > left {
            return false;
        }
        left -= length;
    }
    left == 0
}
