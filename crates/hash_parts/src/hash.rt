// The parts of a hash.
ghost use Rattle.std.specs.Prelude.{◌≡◌, ◌-◌, ◌*◌, ◌%◌, ◌^◌, ◌≤◌};
ghost use Rattle.hash_parts.specs.Hash.{tag_of, first_bucket, control_tag, secondary_tag, rotated, mixed_hash};

// The top 23 bits.
pub const fn hash_tag(hash: u64) -> u64
    ensures { result ≡ tag_of hash }
{
    hash >> 41
}

// The first bucket of a hash.
#[tactic(auto, using(crate::proofs::Products::first_bucket_below), unfolding(crate::specs::Hash::first_bucket))]
pub const fn reduce_hash(hash: u64, buckets: usize) -> usize
    ensures { (result ≡ first_bucket hash buckets) × (result ≤ buckets - 1) }
{
    ((hash as u128 * buckets as u128) >> 64) as usize
}

// What the packed index keeps of a tag in the control byte: from 1 to 127, so that 0 is empty.
pub const fn packed_control_tag(tag: u64) -> u8
    ensures { result ≡ control_tag tag }
{
    ((tag % 128) % 127 + 1) as u8
}

// What the packed index keeps of a tag beside the location.
pub const fn packed_secondary_tag(tag: u64) -> u16
    ensures { result ≡ secondary_tag tag }
{
    ((tag >> 7) % 0x1_0000) as u16
}

// The product modulo 2^64.
pub const fn wrapping_mul(a: u64, b: u64) -> u64
    ensures { result ≡ a * b % 2 ^ 64 }
{
    a.wrapping_mul(b)
}

#[tactic(auto, using(crate::proofs::Rotation::rotated_law))]
pub const fn rotate_left_27(hash: u64) -> u64
    ensures { result ≡ rotated hash }
{
    hash.rotate_left(27)
}

// The hash as the negative filter spreads it.
#[tactic(auto, unfolding(crate::specs::Hash::mixed_hash))]
pub const fn mixed_hash(hash: u64) -> u64
    ensures { result ≡ mixed_hash hash }
{
    wrapping_mul(rotate_left_27(hash), 0x9e37_79b9_7f4a_7c15) ^ (hash >> 29)
}
