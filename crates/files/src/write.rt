// Writing a finished set as a file.
ghost use Rattle.std.specs.Prelude.{true, ◌≡◌, ◌+◌, ◌*◌, ◌^◌, ◌<◌, ◌≤◌, length};
ghost use Rattle.index.specs.Packed.{word_bytes};
ghost use Rattle.sets.specs.Lookup.{areas_hold_lookup};
ghost use Rattle.sets.specs.Questions.{first_no};
ghost use Rattle.sets.specs.Rebuild.{segments_inside, sum_of};
ghost use Rattle.files.specs.Blocks.{block};
ghost use Rattle.files.specs.Contents.{bytes_for, unmarked_index, widths};
ghost use Rattle.files.specs.Kinds.{kind_number};
ghost use Rattle.files.specs.Write.{after_write, ask_write, count_bytes, file_of, file_size, segment_bytes, size_answer, size_reply, write_result};

use crate::blocks::{BlockKind, HEADER_BYTES, put_header};
use crate::content::BUCKET_BYTES;
use crate::copies::{UNMARKED_CONTROL, UNMARKED_WORD, WHOLE, WORD_BYTES, put_number, put_words};
use crate::counts::{COUNT_BYTES, WIDTHS};
use hash_parts::error::SegmentCacheBuildError;
use index::view::SegmentAreas;
use index::word::BUCKET_SLOTS;
use records::record::copy_bytes;
use sets::areas::{MAX_ARENA_BYTES, sum_of};
use sets::cache::FrozenSegmentCache;
use sets::rebuild_questions::source_holds;

// Five headers and kind 1.
const FIXED_BYTES: usize = 74;

// How many bytes a set takes as a file. A caller may have no arena at hand.
pub fn file_bytes(
    set: FrozenSegmentCache,
    starts: &[u64],
    lengths: &[u64],
) -> Result<usize, SegmentCacheBuildError>
    ensures { size_reply result ≡ size_answer set starts.now lengths.now }
{
    if !source_holds(set, starts, lengths, set.filled) {
        return Err(SegmentCacheBuildError::InvalidState);
    }
    let bytes = sum_of(&lengths[..set.segments]);
    if bytes > MAX_ARENA_BYTES {
        return Err(SegmentCacheBuildError::InvalidState);
    }
    Ok(
        FIXED_BYTES
            + WORD_BYTES * set.segments
            + BUCKET_BYTES * set.buckets
            + WORD_BYTES * set.filter_words
            + bytes,
    )
}

// Writes the set to the front of the file area, marks cleared, and says how many bytes the file has. Index, filter
// and areas come one by one, as the lookups of a set take them.
pub fn write_file(
    set: FrozenSegmentCache,
    index: &[u64],
    filter: &[u64],
    areas: SegmentAreas<'_>,
    file: &mut [u8],
) -> Result<usize, SegmentCacheBuildError>
    ensures { write_result result file.new ≡ after_write set index.now filter.now areas.entry.starts.now areas.entry.lengths.now areas.entry.arena.now file.old }
{
    let SegmentAreas {
        starts,
        lengths,
        arena,
    } = areas;
    if !set.lookup_areas_hold(
        index.len(),
        filter.len(),
        starts.len(),
        lengths.len(),
        arena.len(),
    ) {
        return Err(SegmentCacheBuildError::InvalidState);
    }
    let bytes = file_bytes(set, starts, lengths)?;
    if file.len() < bytes {
        return Err(SegmentCacheBuildError::AreaTooShort);
    }
    put_file(set, index, filter, areas, &mut file[..bytes]);
    Ok(bytes)
}

// Writes the set to an area of the file's length, a block after the other.
fn put_file(
    set: FrozenSegmentCache,
    index: &[u64],
    filter: &[u64],
    areas: SegmentAreas<'_>,
    file: &mut [u8],
)
    requires asked { first_no (ask_write set (length index.now) (length filter.now) areas.starts.now areas.lengths.now (length areas.arena.now) (length file.old)) ≡ 0 }
    requires exact { length file.old ≡ file_size set areas.lengths.now }
    ensures { file.new ≡ file_of set index.now filter.now areas.entry.starts.now areas.entry.lengths.now areas.entry.arena.now }
{
    let (counts, rest) = file.split_at_mut(HEADER_BYTES + COUNT_BYTES);
    put_counts(counts, set);
    let (out, rest) = rest.split_at_mut(HEADER_BYTES + WORD_BYTES * set.segments);
    let lengths = &areas.lengths[..set.segments];
    put_block(out, BlockKind::Lengths, lengths);
    let (out, rest) = rest.split_at_mut(HEADER_BYTES + BUCKET_BYTES * set.buckets);
    let words = &index[..BUCKET_SLOTS * set.buckets];
    put_index(out, set.config.packed_bucket_index, set.buckets, words);
    let (out, rest) = rest.split_at_mut(HEADER_BYTES + WORD_BYTES * set.filter_words);
    put_block(out, BlockKind::Filter, &filter[..set.filter_words]);
    let segments = SegmentAreas {
        starts: &areas.starts[..set.segments],
        lengths,
        arena: areas.arena,
    };
    put_segments(rest, segments);
}

// Kind 1: the numbers of the setting and the counts.
#[tactic(auto, using(crate::proofs::Pieces::block_made, crate::proofs::Pieces::counts_long, crate::proofs::Pieces::counts_same))]
fn put_counts(out: &mut [u8], set: FrozenSegmentCache)
    requires { length out.old ≡ 50 }
    ensures { out.new ≡ block 1 (count_bytes set) }
{
    let (header, content) = out.split_at_mut(HEADER_BYTES);
    put_header(header, COUNT_BYTES, BlockKind::Counts);
    let [
        expiry_on,
        tick_secs,
        tick_nanos,
        occupancy,
        packed,
        filter_bits,
    ] = set.config.numbers();
    let numbers = [
        expiry_on,
        tick_secs,
        tick_nanos,
        occupancy,
        packed,
        filter_bits,
        set.entries as u64,
        set.logical_key_bytes as u64,
        set.logical_value_bytes as u64,
        set.record_header_bytes as u64,
    ];
    put_numbers(content, &numbers);
}

// Numbers one after the other, each in its width. A position in the area is kept, since a loop over parts
// that are lent to be written proves nothing of them.
fn put_numbers(out: &mut [u8], numbers: &[u64])
    requires { (length numbers.now ≡ 10) × (length out.old ≡ 44) }
    ensures { out.new ≡ bytes_for widths numbers.now }
{
    let mut at = 0;
    for (&width, &number) in WIDTHS.iter().zip(numbers) {
        put_number(&mut out[at..at + width], number);
        at += width;
    }
}

// A block of words, as they are.
#[tactic(auto, using(crate::proofs::Pieces::block_made, crate::proofs::Pieces::whole_bytes, crate::proofs::Low::word_bytes_length))]
fn put_block(out: &mut [u8], kind: BlockKind, words: &[u64])
    requires { length out.old ≡ 6 + 8 * length words.now }
    ensures { out.new ≡ block (kind_number kind) (word_bytes words.now) }
{
    let (header, content) = out.split_at_mut(HEADER_BYTES);
    put_header(header, content.len(), kind);
    put_words(content, words, WHOLE);
}

// Kind 3.
fn put_index(out: &mut [u8], packed: bool, buckets: usize, index: &[u64])
    requires { (length out.old ≡ 6 + 64 * buckets) × (length index.now ≡ 8 * buckets) }
    ensures { out.new ≡ block 3 (word_bytes (unmarked_index packed buckets index.now)) }
{
    let (header, content) = out.split_at_mut(HEADER_BYTES);
    put_header(header, content.len(), BlockKind::Index);
    put_unmarked(content, packed, buckets, index);
}

// The index without its marks. In the packed layout these stand in the control words, the first of the
// index.
#[tactic(auto, using(crate::proofs::Pieces::words_unmarked))]
fn put_unmarked(out: &mut [u8], packed: bool, buckets: usize, index: &[u64])
    requires { (length out.old ≡ 64 * buckets) × (length index.now ≡ 8 * buckets) }
    ensures { out.new ≡ word_bytes (unmarked_index packed buckets index.now) }
{
    if !packed {
        put_words(out, index, UNMARKED_WORD);
        return;
    }
    let (controls, references) = out.split_at_mut(WORD_BYTES * buckets);
    put_words(controls, &index[..buckets], UNMARKED_CONTROL);
    put_words(references, &index[buckets..], WHOLE);
}

// Kind 5: the segments' bytes, one after the other.
fn put_segments(out: &mut [u8], areas: SegmentAreas<'_>)
    requires counts { length areas.starts.now ≡ length areas.lengths.now }
    requires inside { segments_inside (length areas.lengths.now) (length areas.arena.now) areas.starts.now areas.lengths.now ≡ true }
    requires exact { length out.old ≡ 6 + sum_of (length areas.lengths.now) areas.lengths.now }
    ensures { out.new ≡ block 5 (segment_bytes (length areas.entry.lengths.now) areas.entry.starts.now areas.entry.lengths.now areas.entry.arena.now) }
{
    let (header, content) = out.split_at_mut(HEADER_BYTES);
    put_header(header, content.len(), BlockKind::Segments);
    put_segment_bytes(content, areas);
}

fn put_segment_bytes(out: &mut [u8], areas: SegmentAreas<'_>)
    requires counts { length areas.starts.now ≡ length areas.lengths.now }
    requires inside { segments_inside (length areas.lengths.now) (length areas.arena.now) areas.starts.now areas.lengths.now ≡ true }
    requires exact { length out.old ≡ sum_of (length areas.lengths.now) areas.lengths.now }
    ensures { out.new ≡ segment_bytes (length areas.entry.lengths.now) areas.entry.starts.now areas.entry.lengths.now areas.entry.arena.now }
{
    let SegmentAreas {
        starts,
        lengths,
        arena,
    } = areas;
    let mut at = 0;
    for (&start, &length) in starts.iter().zip(lengths) {
        let start = start as usize;
        let length = length as usize;
        copy_bytes(&mut out[at..at + length], &arena[start..start + length]);
        at += length;
    }
}
