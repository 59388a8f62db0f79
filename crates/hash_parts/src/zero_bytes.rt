// Marks on the bytes of a word: 0x80 in each byte that is marked, 0 in the others.
ghost use Rattle.std.specs.Prelude.{◌≡◌, ◌≤◌};
ghost use Rattle.hash_parts.specs.ZeroBytes.{lowest_set, without_lowest, zero_marks};

// 0x80 in each byte.
pub const BYTE_HIGH_BITS: u64 = 0x8080_8080_8080_8080;

const BYTE_LOW_SEVEN_BITS: u64 = 0x7f7f_7f7f_7f7f_7f7f;

// Marks the zero bytes. No byte's sum carries into the next, so that every byte is judged alone.
pub const fn zero_byte_high_bits(value: u64) -> u64
    ensures { result ≡ zero_marks value }
{
    let sums = (value & BYTE_LOW_SEVEN_BITS).wrapping_add(BYTE_LOW_SEVEN_BITS);
    !(sums | value | BYTE_LOW_SEVEN_BITS) & BYTE_HIGH_BITS
}

// The byte of the lowest set bit of a word, so of marks the lowest marked byte; 8 where there is none.
pub const fn lowest_marked_byte(word: u64) -> usize
    ensures { (result ≡ lowest_set word) × (result ≤ 8) }
{
    (word.trailing_zeros() / 8) as usize
}

// A word without its lowest set bit, so marks without the lowest.
#[tactic(auto, using(crate::proofs::LowestSet::cleared_none, crate::proofs::LowestSet::cleared_right))]
pub const fn without_lowest_mark(word: u64) -> u64
    ensures { result ≡ without_lowest word }
{
    if word == 0 {
        return 0;
    }
    word & (word - 1)
}
