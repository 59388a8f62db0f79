// Index words: tag, location plus 1, and the access mark in bit 63. An empty word is 0.
ghost use Rattle.std.specs.Prelude.{◌≡◌, ◌^◌, nat_le};
ghost use Rattle.index.specs.Word.{word_of, word_tag, word_stored, marked, unmarked};

pub const BUCKET_SLOTS: usize = 8;

// The lowest 40 bits of a word are its stored location.
pub(crate) const LOCATIONS: u64 = 0x100_0000_0000;

// A location of a finished set is its segment's number times so many, and an offset.
pub const SEGMENT_BYTES: u64 = 0x1_0000_0000;

const TAGS: u64 = 0x80_0000;

const ACCESSED_BIT: u64 = 0x8000_0000_0000_0000;

// A word for a tag and a location. Above 23 and 40 bits their lower bits count: the sets stay below.
pub fn encode_index_word(tag: u64, location: u64) -> u64
    ensures { result ≡ word_of tag location }
{
    (tag % TAGS) * LOCATIONS + location.wrapping_add(1) % LOCATIONS
}

pub const fn index_tag(word: u64) -> u64
    ensures { result ≡ word_tag word }
{
    (word >> 40) % TAGS
}

// The stored location: the location plus 1, or 0 in a word that names no record.
pub const fn index_location(word: u64) -> u64
    ensures { result ≡ word_stored word }
{
    word % LOCATIONS
}

pub const fn mark_accessed(word: u64) -> u64
    ensures { result ≡ marked word }
{
    word % ACCESSED_BIT + ACCESSED_BIT
}

pub const fn clear_accessed(word: u64) -> u64
    ensures { result ≡ unmarked word }
{
    word % ACCESSED_BIT
}

pub const fn is_accessed(word: u64) -> bool
    ensures { result ≡ nat_le (2 ^ 63) word }
{
    word >= ACCESSED_BIT
}
