//! Checksums. Each word or byte is joined to the sum by exclusive or, the result multiplied modulo 2^64
//! by 0x9e3779b97f4a7c15 and rotated left by 27 bits, so that a changed bit reaches all bits of the sum
//! after a few steps, and two changes don't undo each other.

fn joined(sum: u64, word: u64) -> u64 {
    (sum ^ word)
        .wrapping_mul(0x9e37_79b9_7f4a_7c15)
        .rotate_left(27)
}

/// The sum with the first so many words of an area.
pub(crate) fn with_words(sum: u64, words: &[u64], count: u64) -> u64 {
    words.iter().copied().take(count as usize).fold(sum, joined)
}

/// The sum with start, length and bytes of so many segments.
pub(crate) fn with_segments(
    mut sum: u64,
    starts: &[u64],
    lengths: &[u64],
    count: u64,
    arena: &[u8],
) -> u64 {
    for (&start, &length) in starts.iter().zip(lengths).take(count as usize) {
        let end = start.wrapping_add(length);
        let bytes = arena.get(start as usize..end as usize).unwrap_or(&[]);
        sum = joined(joined(sum, start), length);
        for &byte in bytes {
            sum = joined(sum, u64::from(byte));
        }
    }
    sum
}
