// Numbers and words in bytes, the lowest byte first. Of words that are copied some bits are cleared.
ghost use Rattle.std.specs.Prelude.{map, ◌≡◌, ◌-◌, ◌*◌, ◌^◌, ◌<◌, ◌≤◌, length};
ghost use Rattle.hash_parts.specs.ZeroBytes.{bytes_of, number_of};
ghost use Rattle.index.specs.Packed.{word_bytes, words_of};
ghost use Rattle.files.specs.Copies.{masked_by};

use records::record::copy_bytes;

pub(crate) const WORD_BYTES: usize = 8;

// Which bits of a word travel: all, all but the mark of an index word, all but the marks of control bytes.
pub(crate) const WHOLE: u64 = 0xffff_ffff_ffff_ffff;

pub(crate) const UNMARKED_WORD: u64 = 0x7fff_ffff_ffff_ffff;

pub(crate) const UNMARKED_CONTROL: u64 = 0x7f7f_7f7f_7f7f_7f7f;

// The number of at most eight bytes.
pub(crate) fn number_of(bytes: &[u8]) -> u64
    requires { length bytes.now ≤ 8 }
    ensures { (result ≡ number_of bytes.now) × (result < 256 ^ length bytes.now) }
{
    let mut word = [0; WORD_BYTES];
    copy_bytes(&mut word[..bytes.len()], bytes);
    u64::from_le_bytes(word)
}

// Writes the lowest bytes of a number, as many as are lent.
pub(crate) fn put_number(out: &mut [u8], number: u64)
    requires { length out.old ≤ 8 }
    ensures { out.new ≡ bytes_of (length out.old) number }
{
    let width = out.len();
    copy_bytes(out, &number.to_le_bytes()[..width]);
}

// Writes words as bytes, to an area of their length. Each goes to its position: nothing is known of an area
// that was written to by chunks.
pub(crate) fn put_words(out: &mut [u8], words: &[u64], mask: u64)
    requires { length out.old ≡ 8 * length words.now }
    ensures { out.new ≡ word_bytes (map (masked_by mask) words.now) }
{
    for (i, word) in words.iter().enumerate() {
        let at = WORD_BYTES * i;
        put_number(&mut out[at..at + WORD_BYTES], *word & mask);
    }
}

// Reads as many words as are lent, each by its index: nothing is known of words that a zip lends to be
// written. The second part of what it ensures comes of the bytes' type: words of bytes fit 64 bits, so that
// WHOLE changes none of them.
pub(crate) fn take_words(bytes: &[u8], mask: u64, words: &mut [u64])
    requires { 8 * length words.old ≤ length bytes.now }
    ensures { (words.new ≡ map (masked_by mask) (words_of (length words.old) bytes.now)) × (map (masked_by (2 ^ 64 - 1)) (words_of (length words.old) bytes.now) ≡ words_of (length words.old) bytes.now) }
{
    let (chunks, _) = bytes.as_chunks::<WORD_BYTES>();
    for (i, word) in words.iter_mut().enumerate() {
        *word = u64::from_le_bytes(chunks[i]) & mask;
    }
}
