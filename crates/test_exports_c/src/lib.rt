// The lower calls for the differential test, as a static library: each export is one call of the function of its name in
// test_exports, with the same clauses.
#![tactic(auto)]

mod index_calls;

ghost use Rattle.std.specs.Prelude.{◌%◌, ◌*◌, ◌^◌, ◌≡◌, length};
ghost use Rattle.hash_parts.specs.Hash.{control_tag, first_bucket, mixed_hash, rotated, secondary_tag, tag_of};
ghost use Rattle.hash_parts.specs.ZeroBytes.{lowest_set, without_lowest, zero_marks};
ghost use Rattle.hash_parts.specs.Duration.{encoded_expiry, lives_at, nanos_of, nanos_words, remaining};
ghost use Rattle.test_exports.specs.Exports.{byte_or256, code_of, duration_of, expiry_of, left_told, lent, lifetime_of, nanos_told, outcome_told, placed, record_told, span_of, told, varint_told};
ghost use Rattle.records.specs.Uleb128.{uleb128};
ghost use Rattle.records.specs.Area.{same_bytes, spanned, written};
ghost use Rattle.records.specs.Varint.{read_varint};
ghost use Rattle.records.specs.Record.{encoded_size, record_at, record_bytes};

#[unsafe(no_mangle)]
pub extern "C" fn test_hash_tag(hash: u64) -> u64
    ensures { result ≡ tag_of hash }
{
    test_exports::test_hash_tag(hash)
}

#[unsafe(no_mangle)]
pub extern "C" fn test_reduce_hash(hash: u64, buckets: usize) -> usize
    ensures { result ≡ first_bucket hash buckets }
{
    test_exports::test_reduce_hash(hash, buckets)
}

#[unsafe(no_mangle)]
pub extern "C" fn test_packed_control_tag(tag: u64) -> u8
    ensures { result ≡ control_tag tag }
{
    test_exports::test_packed_control_tag(tag)
}

#[unsafe(no_mangle)]
pub extern "C" fn test_packed_secondary_tag(tag: u64) -> u16
    ensures { result ≡ secondary_tag tag }
{
    test_exports::test_packed_secondary_tag(tag)
}

#[unsafe(no_mangle)]
pub extern "C" fn test_wrapping_mul(a: u64, b: u64) -> u64
    ensures { result ≡ a * b % 2 ^ 64 }
{
    test_exports::test_wrapping_mul(a, b)
}

#[unsafe(no_mangle)]
pub extern "C" fn test_rotate_left_27(hash: u64) -> u64
    ensures { result ≡ rotated hash }
{
    test_exports::test_rotate_left_27(hash)
}

#[unsafe(no_mangle)]
pub extern "C" fn test_mixed_hash(hash: u64) -> u64
    ensures { result ≡ mixed_hash hash }
{
    test_exports::test_mixed_hash(hash)
}

#[unsafe(no_mangle)]
pub extern "C" fn test_zero_byte_high_bits(value: u64) -> u64
    ensures { result ≡ zero_marks value }
{
    test_exports::test_zero_byte_high_bits(value)
}

#[unsafe(no_mangle)]
pub extern "C" fn test_lowest_marked_byte(word: u64) -> usize
    ensures { result ≡ lowest_set word }
{
    test_exports::test_lowest_marked_byte(word)
}

#[unsafe(no_mangle)]
pub extern "C" fn test_without_lowest_mark(word: u64) -> u64
    ensures { result ≡ without_lowest word }
{
    test_exports::test_without_lowest_mark(word)
}

// The upper and the lower word.
#[unsafe(no_mangle)]
pub extern "C" fn test_as_nanos(secs: u64, nanos: u32, out: &mut [u64])
    ensures { out.new ≡ placed (nanos_told (nanos_words (nanos_of (duration_of secs nanos)))) out.old }
{
    test_exports::test_as_nanos(secs, nanos, out);
}

// The deadline, or 65,536 and the refusal's number.
#[unsafe(no_mangle)]
pub extern "C" fn test_encode_expiry(
    on: bool,
    tick_secs: u64,
    tick_nanos: u32,
    finite: bool,
    secs: u64,
    nanos: u32,
    now_tick: u64,
) -> u64
    ensures { result ≡ code_of 65536 (encoded_expiry (expiry_of on tick_secs tick_nanos) (lifetime_of finite secs nanos) now_tick) }
{
    test_exports::test_encode_expiry(on, tick_secs, tick_nanos, finite, secs, nanos, now_tick)
}

// 0: nothing is left. 1: it never lapses. 2: seconds and nanoseconds stand in the words.
#[unsafe(no_mangle)]
pub extern "C" fn test_remaining_ttl(
    on: bool,
    tick_secs: u64,
    tick_nanos: u32,
    expires_at: u16,
    now_tick: u64,
    out: &mut [u64],
) -> u64
    ensures { told result out.new ≡ lent (left_told (remaining (expiry_of on tick_secs tick_nanos) expires_at now_tick)) out.old }
{
    test_exports::test_remaining_ttl(on, tick_secs, tick_nanos, expires_at, now_tick, out)
}

#[unsafe(no_mangle)]
pub extern "C" fn test_lives_at_tick(expires_at: u16, now_tick: u64) -> bool
    ensures { result ≡ lives_at expires_at now_tick }
{
    test_exports::test_lives_at_tick(expires_at, now_tick)
}

#[unsafe(no_mangle)]
pub extern "C" fn test_varint_bytes(value: usize) -> usize
    ensures { result ≡ length (uleb128 value) }
{
    test_exports::test_varint_bytes(value)
}

// The number of bytes written, or 2^32 and the refusal's number.
#[unsafe(no_mangle)]
pub extern "C" fn test_write_varint(output: &mut [u8], value: usize) -> u64
    ensures { (result ≡ code_of (2 ^ 32) (written (uleb128 value) output.old).answer) × (output.new ≡ (written (uleb128 value) output.old).area) }
{
    test_exports::test_write_varint(output, value)
}

// The words: the value and the position after it.
#[unsafe(no_mangle)]
pub extern "C" fn test_read_varint(input: &[u8], cursor: usize, out: &mut [u64]) -> bool
    ensures { told result out.new ≡ lent (varint_told (read_varint input.now cursor)) out.old }
{
    test_exports::test_read_varint(input, cursor, out)
}

// 0 and the size in a word, or the refusal's number.
#[unsafe(no_mangle)]
pub extern "C" fn test_encoded_record_bytes(
    on: bool,
    key_bytes: usize,
    value_bytes: usize,
    out: &mut [u64],
) -> u64
    ensures { told result out.new ≡ lent (outcome_told (encoded_size (expiry_of on 1 0) key_bytes value_bytes)) out.old }
{
    test_exports::test_encoded_record_bytes(on, key_bytes, value_bytes, out)
}

// 0 and the number of bytes written in a word, or the refusal's number.
#[unsafe(no_mangle)]
pub extern "C" fn test_append_record(
    rest: &mut [u8],
    on: bool,
    key: &[u8],
    value: &[u8],
    expires_at: u16,
    out: &mut [u64],
) -> u64
    ensures result_after { told result out.new ≡ lent (outcome_told (written (record_bytes (expiry_of on 1 0) key.now value.now expires_at) rest.old).answer) out.old }
    ensures area_after { rest.new ≡ (written (record_bytes (expiry_of on 1 0) key.now value.now expires_at) rest.old).area }
{
    test_exports::test_append_record(rest, on, key, value, expires_at, out)
}

// The words: location, bytes before the key, key's place and length, value's place and length,
// deadline, end.
#[unsafe(no_mangle)]
pub extern "C" fn test_record_at(bytes: &[u8], on: bool, location: usize, out: &mut [u64]) -> bool
    ensures { told result out.new ≡ lent (record_told (record_at (expiry_of on 1 0) bytes.now location)) out.old }
{
    test_exports::test_record_at(bytes, on, location, out)
}

#[unsafe(no_mangle)]
pub extern "C" fn test_same_bytes(a: &[u8], b: &[u8]) -> bool
    ensures { result ≡ same_bytes a.now b.now }
{
    test_exports::test_same_bytes(a, b)
}

#[unsafe(no_mangle)]
pub extern "C" fn test_value_slice_len(arena: &[u8], at: usize, len: usize) -> usize
    ensures { result ≡ length (spanned arena.now (span_of at len)) }
{
    test_exports::test_value_slice_len(arena, at, len)
}

// The byte at i of the part, or 256 past its end: the length alone does not show where the part
// begins.
#[unsafe(no_mangle)]
pub extern "C" fn test_value_slice_byte(arena: &[u8], at: usize, len: usize, i: usize) -> u64
    ensures { result ≡ byte_or256 (spanned arena.now (span_of at len)) i }
{
    test_exports::test_value_slice_byte(arena, at, len, i)
}
