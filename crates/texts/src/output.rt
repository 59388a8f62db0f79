// Writing text into an output area. Each function writes from a position on and gives the position
// after what it wrote; where the text does not fit it writes nothing. Area and position are not one struct: a
// caller writes at columns of its own, or keeps both in a struct of its own.
ghost use Rattle.std.specs.Prelude.{◌≡◌, ◌*◌, ◌<◌, ◌≤◌, drop, length};
ghost use Rattle.texts.specs.Output.{appended, decimal_text, ended_before, hex_digit, hex_text, output};

use records::record::copy_bytes;

// The most digits of a 64-bit number.
const DECIMAL_DIGITS: usize = 20;

pub fn put_text(out: &mut [u8], at: usize, text: &[u8]) -> usize
    ensures { output result out.new ≡ appended at text.now out.old }
{
    if out.len() < at || out.len() - at < text.len() {
        return at;
    }
    let end = at + text.len();
    copy_bytes(&mut out[at..end], text);
    end
}

pub fn put_decimal(out: &mut [u8], at: usize, value: u64) -> usize
    ensures { output result out.new ≡ appended at (decimal_text value) out.old }
{
    let mut digits = [0; DECIMAL_DIGITS];
    let from = write_digits(&mut digits, value);
    put_text(out, at, &digits[from..])
}

// A number that ends before a position, so that its last digit is the byte before it.
pub fn put_decimal_before(out: &mut [u8], end: usize, value: u64)
    ensures { out.new ≡ ended_before end (decimal_text value) out.old }
{
    let mut digits = [0; DECIMAL_DIGITS];
    let from = write_digits(&mut digits, value);
    let text = &digits[from..];
    if let Some(at) = end.checked_sub(text.len()) {
        put_text(out, at, text);
    }
}

// Bytes in hexadecimal, small letters, two digits to a byte.
pub fn put_hex(out: &mut [u8], at: usize, bytes: &[u8]) -> usize
    ensures { output result out.new ≡ appended at (hex_text bytes.now) out.old }
{
    if out.len() < at || (out.len() - at) / 2 < bytes.len() {
        return at;
    }
    let end = at + bytes.len() * 2;
    write_hex(&mut out[at..end], bytes);
    end
}

// Writes the digits of a number to the end of an array, and gives where they begin. By hand: what std writes of a number through
// a formatter is known only where that says Ok.
fn write_digits(digits: &mut [u8; DECIMAL_DIGITS], value: u64) -> usize
    ensures { (drop result digits.new ≡ decimal_text value) × (result ≤ 20) }
{
    let mut rest = value;
    for i in (0..DECIMAL_DIGITS).rev() {
        digits[i] = b'0' + (rest % 10) as u8;
        rest /= 10;
        if rest == 0 {
            return i;
        }
    }
    0
}

// Fills an area that has two bytes to each. By index: nothing is known of pairs that a zip lends to be written.
fn write_hex(out: &mut [u8], bytes: &[u8])
    requires { length out.old ≡ 2 * length bytes.now }
    ensures { out.new ≡ hex_text bytes.now }
{
    for (i, byte) in bytes.iter().enumerate() {
        out[2 * i] = hex_digit(*byte / 16);
        out[2 * i + 1] = hex_digit(*byte % 16);
    }
}

// As a byte: std's from_digit gives an option of a character.
fn hex_digit(value: u8) -> u8
    requires { value < 16 }
    ensures { result ≡ hex_digit value }
{
    match value {
        0..=9 => b'0' + value,
        _ => b'a' + (value - 10),
    }
}
