// Reading input into an area.
ghost use Rattle.std.specs.Prelude.{◌≤◌, length};

use std::io::Read;

// Reads until the area is full or the input ends, and tells how many bytes stand at the front of the
// area. A read that fails is taken for the end. The library's read_exact does not tell how many came, and
// its read_to_end allocates.
pub fn read_full<R: Read>(reader: &mut R, area: &mut [u8]) -> usize
    ensures { result ≤ length area.new }
{
    let mut done = 0;
    while done < area.len() {
        let count = read_some(reader, &mut area[done..]);
        if count == 0 {
            break;
        }
        done += count;
    }
    done
}

// How many bytes a read puts at the front of an area: none at the end of the input, and none where it
// fails.
pub fn read_some<R: Read>(reader: &mut R, area: &mut [u8]) -> usize
    ensures { result ≤ length area.new }
{
    reader.read(area).unwrap_or(0)
}

// What stands before the first such byte, and behind it: all and nothing, where there is none.
pub fn cut(text: &[u8], byte: u8) -> (&[u8], &[u8]) {
    match text.iter().position(|b| *b == byte) {
        Some(at) => (&text[..at], &text[at + 1..]),
        None => (text, &[]),
    }
}
