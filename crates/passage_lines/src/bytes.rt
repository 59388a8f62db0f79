// Looking for a byte.
ghost use Rattle.std.specs.Prelude.{◌≡◌, ◌==◌, position};

pub(crate) fn find_byte(bytes: &[u8], byte: u8) -> Option<usize>
    ensures { result ≡ position (λ b. b == byte) bytes.now }
{
    bytes.iter().position(|b| *b == byte)
}
