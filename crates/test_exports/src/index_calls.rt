// The calls of the crate index for the differential test, in the way of lib.rt.
ghost use Rattle.std.specs.Prelude.{◌≡◌, ◌*◌, ◌%◌, ◌^◌, leb};
ghost use Rattle.hash_parts.specs.Duration.{ceil_div};
ghost use Rattle.hash_parts.specs.ZeroBytes.{number_of};
ghost use Rattle.index.specs.Build.{buckets_for, build_slot, cleared, empty_slot, next_bucket};
ghost use Rattle.hash_parts.specs.Outcome.{outcome_of};
ghost use Rattle.index.specs.Filter.{displaced, filter_has, filter_marked, filter_mask, filter_word};
ghost use Rattle.index.specs.Find.{find_in};
ghost use Rattle.index.specs.Packed.{marked_byte, packed_index, packed_scratch, reference_in, unmarked_byte, with_byte};
ghost use Rattle.index.specs.Segments.{locations_inside, split, start_in};
ghost use Rattle.index.specs.View.{record_in};
ghost use Rattle.index.specs.Word.{marked, unmarked, word_of, word_stored, word_tag};
ghost use Rattle.test_exports.specs.Exports.{code_of, expiry_of, found_told, lent, record_told, slot_code, told, view_of};

use hash_parts::error::SegmentCacheBuildError;
use index::filter::NegativeFilter;
use index::find::FinishedIndex;
use index::view::{SegmentAreas, SegmentView};
use records::record::Records;

#[unsafe(no_mangle)]
pub extern "C" fn test_encode_index_word(tag: u64, location: u64) -> u64
    ensures { result ≡ word_of tag location }
{
    index::word::encode_index_word(tag, location)
}

#[unsafe(no_mangle)]
pub extern "C" fn test_index_tag(word: u64) -> u64
    ensures { result ≡ word_tag word }
{
    index::word::index_tag(word)
}

#[unsafe(no_mangle)]
pub extern "C" fn test_index_location(word: u64) -> u64
    ensures { result ≡ word_stored word }
{
    index::word::index_location(word)
}

#[unsafe(no_mangle)]
pub extern "C" fn test_mark_accessed(word: u64) -> u64
    ensures { result ≡ marked word }
{
    index::word::mark_accessed(word)
}

#[unsafe(no_mangle)]
pub extern "C" fn test_clear_accessed(word: u64) -> u64
    ensures { result ≡ unmarked word }
{
    index::word::clear_accessed(word)
}

#[unsafe(no_mangle)]
pub extern "C" fn test_is_accessed(word: u64) -> bool
    ensures { result ≡ leb (2 ^ 63) word }
{
    index::word::is_accessed(word)
}

#[unsafe(no_mangle)]
pub extern "C" fn test_bucket_count(records: usize, occupied: u8) -> usize
    ensures { result ≡ buckets_for records occupied }
{
    index::build::bucket_count(records, occupied)
}

#[unsafe(no_mangle)]
pub extern "C" fn test_bucket_displacement(primary: usize, current: usize, buckets: usize) -> usize
    ensures { result ≡ displaced primary current buckets }
{
    index::filter::bucket_displacement(primary, current, buckets)
}

#[unsafe(no_mangle)]
pub extern "C" fn test_next_bucket(bucket: usize, buckets: usize) -> usize
    ensures { result ≡ next_bucket bucket buckets }
{
    index::build::next_bucket(bucket, buckets)
}

#[unsafe(no_mangle)]
pub extern "C" fn test_clear_words(words: &mut [u64], count: usize)
    ensures { words.new ≡ cleared words.old count }
{
    index::build::clear_words(words, count);
}

// A slot, or 2^63 and the number of the refusal that a build then gives: 4 for a key that stands in
// the index, 3 for a full one.
fn slot_code(slot: Result<usize, SegmentCacheBuildError>) -> u64
    ensures { result ≡ slot_code (outcome_of slot) }
{
    crate::code_of(0x8000_0000_0000_0000, slot)
}

#[unsafe(no_mangle)]
pub extern "C" fn test_find_build_slot(
    index: &[u64],
    buckets: usize,
    records: &[u8],
    on: bool,
    key: &[u8],
    hash: u64,
) -> u64
    ensures { result ≡ slot_code (build_slot index.now buckets records.now (expiry_of on 1 0) key.now hash) }
{
    let expiry = crate::expiry_of(on, 1, 0);
    let records = Records {
        bytes: records,
        expiry,
    };
    slot_code(index::build::find_build_slot(index, buckets, records, key, hash))
}

#[unsafe(no_mangle)]
pub extern "C" fn test_find_empty_build_slot(index: &[u64], buckets: usize, hash: u64) -> u64
    ensures { result ≡ slot_code (empty_slot index.now buckets hash) }
{
    slot_code(index::build::find_empty_build_slot(index, buckets, hash))
}

#[unsafe(no_mangle)]
pub extern "C" fn test_negative_filter_words(records: u32, bits: u8) -> usize
    ensures { result ≡ ceil_div (records * bits) 64 }
{
    index::filter::negative_filter_words(records, bits)
}

#[unsafe(no_mangle)]
pub extern "C" fn test_negative_filter_word(words: usize, hash: u64) -> usize
    ensures { result ≡ filter_word words hash }
{
    index::filter::negative_filter_location(words, hash).word
}

#[unsafe(no_mangle)]
pub extern "C" fn test_negative_filter_mask(words: usize, hash: u64) -> u64
    ensures { result ≡ filter_mask hash }
{
    index::filter::negative_filter_location(words, hash).mask
}

#[unsafe(no_mangle)]
pub extern "C" fn test_mark_negative_filter(filter: &mut [u64], words: usize, hash: u64)
    ensures { filter.new ≡ filter_marked filter.old words hash }
{
    index::filter::mark_negative_filter(filter, words, hash);
}

#[unsafe(no_mangle)]
pub extern "C" fn test_negative_filter_may_contain(filter: &[u64], words: usize, hash: u64) -> bool
    ensures { result ≡ filter_has filter.now words hash }
{
    let filter = NegativeFilter {
        words: filter,
        count: words,
    };
    filter.may_contain(hash)
}

#[unsafe(no_mangle)]
pub extern "C" fn test_next_start(index: &[u64], buckets: usize, bound: u64) -> u64
    ensures { result ≡ start_in index.now buckets bound }
{
    index::segments::next_start(index, buckets, bound)
}

#[unsafe(no_mangle)]
pub extern "C" fn test_locations_inside(index: &[u64], buckets: usize, filled: usize) -> bool
    ensures { result ≡ locations_inside index.now buckets filled }
{
    index::segments::locations_inside(index, buckets, filled)
}

// The number of segments, or 2^32 and the refusal's number.
#[unsafe(no_mangle)]
pub extern "C" fn test_split_record_segments(
    index: &mut [u64],
    buckets: usize,
    filled: usize,
    target: usize,
    starts: &mut [u64],
    lengths: &mut [u64],
) -> u64
    ensures result_after { result ≡ code_of (2 ^ 32) (split index.old buckets filled target starts.old lengths.old).answer }
    ensures index_after { index.new ≡ (split index.old buckets filled target starts.old lengths.old).index }
    ensures starts_after { starts.new ≡ (split index.old buckets filled target starts.old lengths.old).starts }
    ensures lengths_after { lengths.new ≡ (split index.old buckets filled target starts.old lengths.old).lengths }
{
    let answer = index::segments::split_record_segments(
        index, buckets, filled, target, starts, lengths,
    );
    crate::code_of(0x1_0000_0000, answer)
}

#[unsafe(no_mangle)]
pub extern "C" fn test_finish_packed_index(index: &mut [u64], buckets: usize, scratch: &mut [u64])
    ensures { (index.new ≡ packed_index buckets index.old scratch.old) × (scratch.new ≡ packed_scratch buckets index.old scratch.old) }
{
    index::packed::finish_packed_index(index, buckets, scratch);
}

#[unsafe(no_mangle)]
pub extern "C" fn test_packed_reference_at(before: u64, word: u64, slot: usize) -> u64
    ensures { result ≡ number_of (reference_in before word (slot % 8)) }
{
    index::packed::packed_reference_at(before, word, slot)
}

#[unsafe(no_mangle)]
pub extern "C" fn test_mark_control(control: u64, slot: usize) -> u64
    ensures { result ≡ with_byte marked_byte (slot % 8) control }
{
    index::packed::mark_control(control, slot)
}

#[unsafe(no_mangle)]
pub extern "C" fn test_clear_control(control: u64, slot: usize) -> u64
    ensures { result ≡ with_byte unmarked_byte (slot % 8) control }
{
    index::packed::clear_control(control, slot)
}

// The words are those of test_record_at.
#[unsafe(no_mangle)]
#[tactic(auto, using(crate::proofs::Answers::placed_none))]
pub extern "C" fn test_record_at_location(
    arena: &[u8],
    filled: usize,
    segments: usize,
    on: bool,
    starts: &[u64],
    lengths: &[u64],
    stored: u64,
    out: &mut [u64],
) -> bool
    ensures { told result out.new ≡ lent (record_told (record_in (view_of on filled segments) arena.now starts.now lengths.now stored)) out.old }
{
    let expiry = crate::expiry_of(on, 1, 0);
    let view = SegmentView {
        expiry,
        filled,
        segments,
    };
    let areas = SegmentAreas {
        starts,
        lengths,
        arena,
    };
    let Some(record) = view.record_at_location(areas, stored) else {
        return false;
    };
    crate::put_words(out, &crate::record_words(record));
    true
}

// The words: the slot, and those of test_record_at.
#[unsafe(no_mangle)]
#[tactic(auto, using(crate::proofs::Answers::placed_none))]
pub extern "C" fn test_find_record(
    arena: &[u8],
    filled: usize,
    segments: usize,
    on: bool,
    packed: bool,
    index: &[u64],
    buckets: usize,
    filter: &[u64],
    filter_words: usize,
    starts: &[u64],
    lengths: &[u64],
    key: &[u8],
    hash: u64,
    out: &mut [u64],
) -> bool
    ensures { told result out.new ≡ lent (found_told (find_in (view_of on filled segments) packed index.now buckets filter.now filter_words starts.now lengths.now arena.now key.now hash)) out.old }
{
    let expiry = crate::expiry_of(on, 1, 0);
    let view = SegmentView {
        expiry,
        filled,
        segments,
    };
    let index = FinishedIndex {
        words: index,
        packed,
        buckets,
    };
    let filter = NegativeFilter {
        words: filter,
        count: filter_words,
    };
    let areas = SegmentAreas {
        starts,
        lengths,
        arena,
    };
    let Some(found) = index::find::find_record(view, index, filter, areas, key, hash) else {
        return false;
    };
    let mut words = [found.slot as u64; 9];
    words[1..].copy_from_slice(&crate::record_words(found.entry));
    crate::put_words(out, &words);
    true
}
