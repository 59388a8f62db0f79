// The port's lower calls for the differential test, as C functions on numbers and slices: C has no structs
// or options of the port's, so each area and count is a parameter of its own. An answer that does not fit one
// number goes to lent words, and only if all of it fits there.
#![tactic(auto)]

pub mod index_calls;

ghost use Rattle.std.specs.Prelude.{◌≡◌, ◌*◌, ◌%◌, ◌^◌, ◌≤◌, length};
ghost use Rattle.hash_parts.specs.Duration.{encoded_expiry, lives_at, nanos_of, nanos_words, remaining};
ghost use Rattle.hash_parts.specs.Hash.{tag_of, first_bucket, control_tag, secondary_tag, rotated, mixed_hash};
ghost use Rattle.hash_parts.specs.ZeroBytes.{lowest_set, without_lowest, zero_marks};
ghost use Rattle.records.specs.Area.{same_bytes, spanned, written};
ghost use Rattle.hash_parts.specs.Outcome.{outcome_of};
ghost use Rattle.records.specs.Record.{encoded_size, record_at, record_bytes};
ghost use Rattle.records.specs.Uleb128.{uleb128};
ghost use Rattle.records.specs.Varint.{read_varint};
ghost use Rattle.test_exports.specs.Exports.{byte_or256, code_of, duration_of, expiry_of, left_told, lent, lifetime_of, nanos_told, outcome_told, placed, record_told, record_words, span_of, told, varint_told};

use hash_parts::duration::{Duration, SegmentRemainingTtl};
use hash_parts::error::SegmentCacheBuildError;
use hash_parts::setting::SegmentExpiry;
use index::packed::copy_words;
use records::record::{RecordRef, Records, Span};

#[unsafe(no_mangle)]
pub extern "C" fn test_hash_tag(hash: u64) -> u64
    ensures { result ≡ tag_of hash }
{
    hash_parts::hash::hash_tag(hash)
}

#[unsafe(no_mangle)]
pub extern "C" fn test_reduce_hash(hash: u64, buckets: usize) -> usize
    ensures { result ≡ first_bucket hash buckets }
{
    hash_parts::hash::reduce_hash(hash, buckets)
}

#[unsafe(no_mangle)]
pub extern "C" fn test_packed_control_tag(tag: u64) -> u8
    ensures { result ≡ control_tag tag }
{
    hash_parts::hash::packed_control_tag(tag)
}

#[unsafe(no_mangle)]
pub extern "C" fn test_packed_secondary_tag(tag: u64) -> u16
    ensures { result ≡ secondary_tag tag }
{
    hash_parts::hash::packed_secondary_tag(tag)
}

#[unsafe(no_mangle)]
pub extern "C" fn test_wrapping_mul(a: u64, b: u64) -> u64
    ensures { result ≡ a * b % 2 ^ 64 }
{
    hash_parts::hash::wrapping_mul(a, b)
}

#[unsafe(no_mangle)]
pub extern "C" fn test_rotate_left_27(hash: u64) -> u64
    ensures { result ≡ rotated hash }
{
    hash_parts::hash::rotate_left_27(hash)
}

#[unsafe(no_mangle)]
pub extern "C" fn test_mixed_hash(hash: u64) -> u64
    ensures { result ≡ mixed_hash hash }
{
    hash_parts::hash::mixed_hash(hash)
}

#[unsafe(no_mangle)]
pub extern "C" fn test_zero_byte_high_bits(value: u64) -> u64
    ensures { result ≡ zero_marks value }
{
    hash_parts::zero_bytes::zero_byte_high_bits(value)
}

#[unsafe(no_mangle)]
pub extern "C" fn test_lowest_marked_byte(word: u64) -> usize
    ensures { result ≡ lowest_set word }
{
    hash_parts::zero_bytes::lowest_marked_byte(word)
}

#[unsafe(no_mangle)]
pub extern "C" fn test_without_lowest_mark(word: u64) -> u64
    ensures { result ≡ without_lowest word }
{
    hash_parts::zero_bytes::without_lowest_mark(word)
}

fn expiry_of(on: bool, secs: u64, nanos: u32) -> SegmentExpiry
    ensures { result ≡ expiry_of on secs nanos }
{
    if on {
        let tick = Duration { secs, nanos };
        return SegmentExpiry::Relative16 { tick };
    }
    SegmentExpiry::None
}

fn lifetime_of(finite: bool, secs: u64, nanos: u32) -> Option<Duration>
    ensures { result ≡ lifetime_of finite secs nanos }
{
    finite.then_some(Duration { secs, nanos })
}

// The upper and the lower word.
#[unsafe(no_mangle)]
pub extern "C" fn test_as_nanos(secs: u64, nanos: u32, out: &mut [u64])
    ensures { out.new ≡ placed (nanos_told (nanos_words (nanos_of (duration_of secs nanos)))) out.old }
{
    let number = Duration { secs, nanos }.as_nanos();
    put_words(out, &[(number >> 64) as u64, (number % (1 << 64)) as u64]);
}

// The deadline, or 65,536 and the refusal's number.
#[unsafe(no_mangle)]
#[tactic(auto, using(crate::proofs::Answers::code_refused), unfolding(crate::specs::Exports::code_of))]
pub extern "C" fn test_encode_expiry(
    on: bool,
    tick_secs: u64,
    tick_nanos: u32,
    finite: bool,
    secs: u64,
    nanos: u32,
    now_tick: u64,
) -> u64
    ensures { result ≡ code_of 65536 (encoded_expiry (expiry_of on tick_secs tick_nanos) (lifetime_of finite secs nanos) now_tick) }
{
    let expiry = expiry_of(on, tick_secs, tick_nanos);
    let lifetime = lifetime_of(finite, secs, nanos);
    match hash_parts::duration::encode_expiry_at_tick(expiry, lifetime, now_tick) {
        Ok(deadline) => deadline as u64,
        Err(refusal) => 65_536 + (refusal.number() as u64),
    }
}

// 0: nothing is left. 1: it never lapses. 2: seconds and nanoseconds stand in the words.
#[unsafe(no_mangle)]
#[tactic(auto, using(crate::proofs::Answers::placed_none))]
pub extern "C" fn test_remaining_ttl(
    on: bool,
    tick_secs: u64,
    tick_nanos: u32,
    expires_at: u16,
    now_tick: u64,
    out: &mut [u64],
) -> u64
    ensures { told result out.new ≡ lent (left_told (remaining (expiry_of on tick_secs tick_nanos) expires_at now_tick)) out.old }
{
    let expiry = expiry_of(on, tick_secs, tick_nanos);
    match hash_parts::duration::remaining_ttl(expiry, expires_at, now_tick) {
        None => 0,
        Some(SegmentRemainingTtl::Never) => 1,
        Some(SegmentRemainingTtl::Finite(left)) => {
            put_words(out, &[left.secs, left.nanos as u64]);
            2
        }
    }
}

#[unsafe(no_mangle)]
pub extern "C" fn test_lives_at_tick(expires_at: u16, now_tick: u64) -> bool
    ensures { result ≡ lives_at expires_at now_tick }
{
    hash_parts::duration::lives_at_tick(expires_at, now_tick)
}

// Writes the words to the front where all of them fit.
#[tactic(auto, unfolding(crate::specs::Exports::placed))]
fn put_words(out: &mut [u64], words: &[u64])
    ensures { out.new ≡ placed words.now out.old }
{
    if words.len() <= out.len() {
        copy_words(&mut out[..words.len()], words);
    }
}

// A number, or a base and the refusal's number.
#[tactic(auto, using(crate::proofs::Answers::code_refused), unfolding(crate::specs::Exports::code_of))]
fn code_of(base: u64, answer: Result<usize, SegmentCacheBuildError>) -> u64
    requires { base ≤ 2 ^ 63 }
    ensures { result ≡ code_of base (outcome_of answer) }
{
    match answer {
        Ok(value) => value as u64,
        Err(refusal) => base + refusal.number() as u64,
    }
}

#[unsafe(no_mangle)]
pub extern "C" fn test_varint_bytes(value: usize) -> usize
    ensures { result ≡ length (uleb128 value) }
{
    records::varint::varint_bytes(value)
}

// The number of bytes written, or 2^32 and the refusal's number.
#[unsafe(no_mangle)]
pub extern "C" fn test_write_varint(output: &mut [u8], value: usize) -> u64
    ensures { (result ≡ code_of (2 ^ 32) (written (uleb128 value) output.old).answer) × (output.new ≡ (written (uleb128 value) output.old).area) }
{
    code_of(0x1_0000_0000, records::varint::write_varint(output, value))
}

// The words: the value and the position after it.
#[unsafe(no_mangle)]
#[tactic(auto, using(crate::proofs::Answers::placed_none))]
pub extern "C" fn test_read_varint(input: &[u8], cursor: usize, out: &mut [u64]) -> bool
    ensures { told result out.new ≡ lent (varint_told (read_varint input.now cursor)) out.old }
{
    let Some((value, next)) = records::varint::read_varint(input, cursor) else {
        return false;
    };
    put_words(out, &[value as u64, next as u64]);
    true
}

// 0 and the size in a word, or the refusal's number.
#[unsafe(no_mangle)]
#[tactic(auto, using(crate::proofs::Answers::told_refused), unfolding(crate::specs::Exports::outcome_told))]
pub extern "C" fn test_encoded_record_bytes(
    on: bool,
    key_bytes: usize,
    value_bytes: usize,
    out: &mut [u64],
) -> u64
    ensures { told result out.new ≡ lent (outcome_told (encoded_size (expiry_of on 1 0) key_bytes value_bytes)) out.old }
{
    let expiry = expiry_of(on, 1, 0);
    match records::record::encoded_record_bytes(expiry, key_bytes, value_bytes) {
        Ok(size) => {
            put_words(out, &[size as u64]);
            0
        }
        Err(refusal) => refusal.number() as u64,
    }
}

// 0 and the number of bytes written in a word, or the refusal's number.
#[unsafe(no_mangle)]
#[tactic(auto, using(crate::proofs::Answers::wrote_some), unfolding(crate::specs::Exports::outcome_told))]
pub extern "C" fn test_append_record(
    rest: &mut [u8],
    on: bool,
    key: &[u8],
    value: &[u8],
    expires_at: u16,
    out: &mut [u64],
) -> u64
    ensures result_after { told result out.new ≡ lent (outcome_told (written (record_bytes (expiry_of on 1 0) key.now value.now expires_at) rest.old).answer) out.old }
    ensures area_after { rest.new ≡ (written (record_bytes (expiry_of on 1 0) key.now value.now expires_at) rest.old).area }
{
    let expiry = expiry_of(on, 1, 0);
    let bytes = records::record::append_record(rest, expiry, key, value, expires_at);
    if bytes == 0 {
        let refusal = SegmentCacheBuildError::AreaTooShort;
        return refusal.number() as u64;
    }
    put_words(out, &[bytes as u64]);
    0
}

// The words: location, bytes before the key, key's place and length, value's place and length,
// deadline, end.
#[unsafe(no_mangle)]
#[tactic(auto, using(crate::proofs::Answers::placed_none))]
pub extern "C" fn test_record_at(bytes: &[u8], on: bool, location: usize, out: &mut [u64]) -> bool
    ensures { told result out.new ≡ lent (record_told (record_at (expiry_of on 1 0) bytes.now location)) out.old }
{
    let expiry = expiry_of(on, 1, 0);
    let Some(record) = Records { bytes, expiry }.record_at(location) else {
        return false;
    };
    put_words(out, &record_words(record));
    true
}

fn record_words(read: RecordRef) -> [u64; 8]
    ensures { result ≡ record_words read }
{
    [
        read.location as u64,
        read.key_offset as u64,
        read.key.at as u64,
        read.key.len as u64,
        read.value.at as u64,
        read.value.len as u64,
        read.expires_at as u64,
        read.end as u64,
    ]
}

#[unsafe(no_mangle)]
pub extern "C" fn test_same_bytes(a: &[u8], b: &[u8]) -> bool
    ensures { result ≡ same_bytes a.now b.now }
{
    records::record::same_bytes(a, b)
}

#[unsafe(no_mangle)]
pub extern "C" fn test_value_slice_len(arena: &[u8], at: usize, len: usize) -> usize
    ensures { result ≡ length (spanned arena.now (span_of at len)) }
{
    let part = records::record::value_slice(arena, Span { at, len });
    part.len()
}

// The byte at i of the part, or 256 past its end: the length alone does not show where the part
// begins.
#[unsafe(no_mangle)]
#[tactic(auto, unfolding(crate::specs::Exports::byte_or256))]
pub extern "C" fn test_value_slice_byte(arena: &[u8], at: usize, len: usize, i: usize) -> u64
    ensures { result ≡ byte_or256 (spanned arena.now (span_of at len)) i }
{
    let part = records::record::value_slice(arena, Span { at, len });
    part.get(i).map_or(256, |&byte| byte as u64)
}
