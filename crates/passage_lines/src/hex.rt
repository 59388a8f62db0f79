// Bytes in hexadecimal, small letters.
ghost use Rattle.std.specs.Prelude.{◌≡◌, true, ◌*◌, ◌≤◌, length, IfSome};
ghost use Rattle.records.specs.Area.{over};
ghost use Rattle.passage_lines.specs.Hex.{byte_of_hex, bytes_of_hex, decode_result, decoded, front_of, hex_bytes, hex_length, is_hex, within};

use crate::text::digit;

// The byte that two digits spell.
#[tactic(auto, using(crate::proofs::Numbers::digit_is), unfolding(crate::specs::Hex::byte_of_hex, crate::specs::Text::digit_in))]
fn byte_of_hex(high: u8, low: u8) -> Option<u8>
    ensures { result ≡ byte_of_hex high low }
{
    let high = digit(high, 16)?;
    let low = digit(low, 16)?;
    Some((high * 16 + low) as u8)
}

// Whether a text is an even number of digits.
#[tactic(auto, using(crate::proofs::Digits::is_hex_law, std::proofs::lemmas::Bool::Decides::nat_tests))]
fn is_hex(text: &[u8]) -> bool
    ensures { result ≡ is_hex text.now }
{
    text.len() % 2 == 0 && text.iter().all(|c| digit(*c, 16).is_some())
}

// How many characters of a field spell its bytes: none of `-`.
#[tactic(auto, unfolding(crate::specs::Hex::hex_length))]
pub(crate) fn hex_length(text: &[u8]) -> Option<usize>
    ensures { result ≡ hex_length text.now }
{
    if text == b"-".as_slice() {
        return Some(0);
    }
    (!text.is_empty() && is_hex(text)).then_some(text.len())
}

// Writes the bytes that a text spells to the front of an area, and gives how many they are. Where the
// text spells none, or the area is too short, nothing is written.
#[tactic(auto, using(crate::proofs::Digits::bytes_length, crate::proofs::Digits::decoded_in, crate::proofs::Digits::decoded_short, crate::proofs::Digits::decoded_bad, crate::proofs::Digits::front_in, crate::proofs::Digits::front_short, crate::proofs::Digits::front_bad))]
pub fn decode_hex(text: &[u8], out: &mut [u8]) -> Option<usize>
    ensures area_after { decode_result result out.new ≡ decoded text.now out.old }
    ensures front_after { front_of result out.new ≡ within (length out.old) (bytes_of_hex text.now) }
    ensures count_inside { IfSome result (λ n. n ≤ length out.new) }
{
    let count = text.len() / 2;
    if !is_hex(text) || out.len() < count {
        return None;
    }
    write_bytes(out, text);
    Some(count)
}

// By an index: nothing is known of bytes that a zip with the pairs of digits lends to be written.
fn write_bytes(out: &mut [u8], text: &[u8])
    requires { (is_hex text.now ≡ true) × (length text.now ≤ 2 * length out.old) }
    ensures { out.new ≡ over (hex_bytes text.now) out.old }
{
    for i in 0..text.len() / 2 {
        out[i] = byte_of_hex(text[2 * i], text[2 * i + 1]).unwrap();
    }
}
