// Writing the pieces of a line into an output area: text and numbers as texts writes them, bytes in the
// program's form.
ghost use Rattle.std.specs.Prelude.{◌≡◌};
ghost use Rattle.texts.specs.Output.{appended, output};
ghost use Rattle.passage_lines.specs.Reply.{bytes_text};

pub use texts::output::{put_decimal, put_text};

// Bytes in hexadecimal, `-` where there are none.
#[tactic(auto, unfolding(crate::specs::Reply::bytes_text))]
pub fn put_hex(out: &mut [u8], at: usize, bytes: &[u8]) -> usize
    ensures { output result out.new ≡ appended at (bytes_text bytes.now) out.old }
{
    if bytes.is_empty() {
        return put_text(out, at, b"-");
    }
    texts::output::put_hex(out, at, bytes)
}
