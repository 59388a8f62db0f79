// The packed index: one control word a bucket, then the eight references of a bucket, seven bytes
// each, in seven words.
ghost use Rattle.std.specs.Prelude.{◌≡◌, ◌+◌, ◌-◌, ◌*◌, ◌/◌, ◌%◌, ◌^◌, ◌<◌, ◌≤◌, [], ◌∷◌, ◌++◌, length, take, drop, slice_index};
ghost use Rattle.hash_parts.specs.ZeroBytes.{bytes_of, number_of};
ghost use Rattle.records.specs.Area.{copied, pasted};
ghost use Rattle.index.specs.Packed.{control_byte, control_word, marked_byte, packed_index, packed_scratch, packed_slot, reference_bytes, reference_in, reference_words, unmarked_byte, with_byte};

use crate::slot::IndexSlot;
use crate::word::{BUCKET_SLOTS, index_location, index_tag};
use hash_parts::hash::{packed_control_tag, packed_secondary_tag};

// Packs an index of words in place, with one scratch word a bucket, which then holds the bucket's
// control word. Where an area is too short nothing is written. The last bucket goes first: its
// references stand past the words of those before it.
pub fn finish_packed_index(index: &mut [u64], buckets: usize, scratch: &mut [u64])
    ensures { (index.new ≡ packed_index buckets index.old scratch.old) × (scratch.new ≡ packed_scratch buckets index.old scratch.old) }
{
    if index.len() / BUCKET_SLOTS < buckets {
        return;
    }
    if scratch.len() < buckets {
        return;
    }
    for bucket in (0..buckets).rev() {
        scratch[bucket] = pack_bucket(index, buckets, bucket);
    }
    copy_words(&mut index[..buckets], &scratch[..buckets]);
}

// The same of words as copy_bytes of bytes.
pub fn copy_words(out: &mut [u64], words: &[u64])
    ensures { out.new ≡ copied words.now out.old }
{
    if out.len() == words.len() {
        for (i, word) in words.iter().enumerate() {
            out[i] = *word;
        }
    }
}

// Writes the references of a bucket, and gives its control word.
fn pack_bucket(index: &mut [u64], buckets: usize, bucket: usize) -> u64
    requires { (bucket < buckets) × (8 * buckets ≤ length index.old) }
    ensures { (result ≡ control_word (take 8 (drop (8 * bucket) index.old))) × (index.new ≡ pasted (buckets + 7 * bucket) (reference_words (take 8 (drop (8 * bucket) index.old))) index.old) }
{
    let begin = BUCKET_SLOTS * bucket;
    let mut words = [0; BUCKET_SLOTS];
    words.copy_from_slice(&index[begin..begin + BUCKET_SLOTS]);
    write_references(index, buckets + 7 * bucket, words);
    control_word(words)
}

// Eight references of seven bytes are seven words, each split at another byte: so seven lines and no loop.
fn write_references(index: &mut [u64], at: usize, words: [u64; BUCKET_SLOTS])
    requires { at + 7 ≤ length index.old }
    ensures { index.new ≡ pasted at (reference_words words) index.old }
{
    let [r0, r1, r2, r3, r4, r5, r6, r7] = words.map(packed_reference);
    index[at] = r0 + (r1 % 0x100) * 0x100_0000_0000_0000;
    index[at + 1] = r1 / 0x100 + (r2 % 0x1_0000) * 0x1_0000_0000_0000;
    index[at + 2] = r2 / 0x1_0000 + (r3 % 0x100_0000) * 0x100_0000_0000;
    index[at + 3] = r3 / 0x100_0000 + (r4 % 0x1_0000_0000) * 0x1_0000_0000;
    index[at + 4] = r4 / 0x1_0000_0000 + (r5 % 0x100_0000_0000) * 0x100_0000;
    index[at + 5] = r5 / 0x100_0000_0000 + (r6 % 0x1_0000_0000_0000) * 0x1_0000;
    index[at + 6] = r6 / 0x1_0000_0000_0000 + r7 * 0x100;
}

// The seven bytes of a word's reference, as a number.
fn packed_reference(word: u64) -> u64
    ensures { (result ≡ number_of (reference_bytes word)) × (result < 2 ^ 56) }
{
    if word == 0 {
        return 0;
    }
    u64::from(packed_secondary_tag(index_tag(word))) + index_location(word) * 0x1_0000
}

fn control_word(words: [u64; BUCKET_SLOTS]) -> u64
    ensures { result ≡ control_word words }
{
    u64::from_le_bytes(words.map(control_byte))
}

fn control_byte(word: u64) -> u8
    ensures { (result ≡ control_byte word) × (result < 128) }
{
    if word == 0 {
        return 0;
    }
    packed_control_tag(index_tag(word))
}

// The reference of a slot of a bucket, out of the word before the slot's own and the slot's own: it
// begins in the first of them and ends in the second. That of slot 0 lies in the second alone, that of
// slot 7 in the first. Slots count modulo 8.
pub fn packed_reference_at(before: u64, word: u64, slot: usize) -> u64
    ensures { (result ≡ number_of (reference_in before word (slot % 8))) × (result < 2 ^ 56) }
{
    let bits = ((slot % 8) * 8) as u64;
    reference_front(before, bits) + (word << bits) % 0x100_0000_0000_0000
}

// The upper bits of a word, so many.
fn reference_front(before: u64, bits: u64) -> u64
    requires { bits < 64 }
    ensures { result ≡ before * 2 ^ bits / 2 ^ 64 }
{
    if bits == 0 {
        return 0;
    }
    before >> (64 - bits)
}

// A slot of the packed layout, by its bucket's control word and the words of its reference.
pub(crate) fn packed_slot(control: u64, before: u64, word: u64, slot: usize) -> IndexSlot
    ensures { result ≡ packed_slot (slice_index (bytes_of 8 control) (slot % 8)) (reference_in before word (slot % 8)) }
{
    let tag = (control >> (((slot % 8) * 8) as u64)) % 128;
    if tag == 0 {
        return None;
    }
    let reference = packed_reference_at(before, word, slot);
    Some((tag + 128 * (reference % 0x1_0000), reference / 0x1_0000))
}

// The control word with the mark of a slot set.
pub fn mark_control(control: u64, slot: usize) -> u64
    ensures { result ≡ with_byte marked_byte (slot % 8) control }
{
    control | (0x80 << (((slot % 8) * 8) as u64))
}

// The control word with the mark of a slot cleared.
pub fn clear_control(control: u64, slot: usize) -> u64
    ensures { result ≡ with_byte unmarked_byte (slot % 8) control }
{
    control & !(0x80 << (((slot % 8) * 8) as u64))
}
