// Lines of the trial programs, and the input that they read.
#![tactic(auto)]

pub mod input;

use std::io;

// Bytes in hexadecimal, each with a space before it.
pub fn bytes(rt: &impl Print, bytes: &[u8]) -> io::Result<()> {
    for byte in bytes {
        print!(rt; " {byte:02x}")?;
    }
    Ok(())
}
