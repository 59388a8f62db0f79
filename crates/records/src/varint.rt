// Length prefixes: unsigned LEB128 of the DWARF standard.
ghost use Rattle.std.specs.Prelude.{◌≡◌, ◌≤◌, length};
ghost use Rattle.records.specs.Area.{over, write_result, written};
ghost use Rattle.records.specs.Uleb128.{uleb128};
ghost use Rattle.records.specs.Varint.{read_varint};

use hash_parts::error::SegmentCacheBuildError;

// So many bytes of seven bits each cannot pass 64 bits.
const WHOLE_BYTES: usize = 9;

pub fn varint_bytes(value: usize) -> usize
    ensures { (result ≡ length (uleb128 value)) × (result ≤ 10) }
{
    value.max(1).ilog2() as usize / 7 + 1
}

// Writes a number to the front of an area, and says how many bytes it wrote.
pub fn write_varint(output: &mut [u8], value: usize) -> Result<usize, SegmentCacheBuildError>
    ensures { write_result result output.new ≡ written (uleb128 value) output.old }
{
    if output.len() < varint_bytes(value) {
        return Err(SegmentCacheBuildError::AreaTooShort);
    }
    Ok(put_varint(output, value))
}

// Writes a number where there is room for it. The loop follows the number: with the bytes counted ahead it would be no
// shorter.
pub(crate) fn put_varint(output: &mut [u8], value: usize) -> usize
    requires { length (uleb128 value) ≤ length output.old }
    ensures { (result ≡ length (uleb128 value)) × (output.new ≡ over (uleb128 value) output.old) }
{
    let mut rest = value;
    let mut at = 0;
    while rest >= 128 {
        output[at] = (rest % 128 + 128) as u8;
        rest >>= 7;
        at += 1;
    }
    output[at] = rest as u8;
    at + 1
}

// The number that begins at a position, and the position after it. Of the byte after the whole ones
// only the lowest bit counts, and none may follow.
pub fn read_varint(input: &[u8], cursor: usize) -> Option<(usize, usize)>
    ensures { result ≡ read_varint input.now cursor }
{
    let bytes = input.get(cursor..)?;
    let mut value = 0;
    let mut scale = 1;
    for at in 0..WHOLE_BYTES {
        let byte = usize::from(*bytes.get(at)?);
        value += byte % 128 * scale;
        if byte < 128 {
            return Some((value, cursor + at + 1));
        }
        scale *= 128;
    }
    let byte = usize::from(*bytes.get(WHOLE_BYTES)?);
    if byte >= 128 {
        return None;
    }
    Some((value + byte % 2 * scale, cursor + WHOLE_BYTES + 1))
}
