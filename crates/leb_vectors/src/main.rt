// Published unsigned LEB128 examples, written and read back: the DWARF standard's table (2, 127,
// 128, 129, 12857), the usual example 624485, both sides of 2^32, and the ends of the ranges of nine
// and ten bytes.
#![tactic(auto)]

use records::varint::{read_varint, write_varint};
use std::io;

// A number, its bytes, and the number and the byte count that reading them gives.
fn vector(rt: &impl Print, value: usize) -> io::Result<()> {
    let mut out = [0u8; 10];
    let Ok(n) = write_varint(&mut out, value) else {
        return println!(rt; "refused");
    };
    print!(rt; "{value}:")?;
    show::bytes(rt, out.get(..n).unwrap_or(&[]))?;
    show_read(rt, &out)
}

// What stands at the front of some bytes.
fn show_read(rt: &impl Print, bytes: &[u8]) -> io::Result<()> {
    match read_varint(bytes, 0) {
        Some((value, next)) => println!(rt; ", read {value} of {next}"),
        None => println!(rt; ", unreadable"),
    }
}

fn main(rt: HostRuntime) -> io::Result<()> {
    for value in [
        2,
        127,
        128,
        129,
        12_857,
        624_485,
        0xffff_ffff,
        0x1_0000_0000,
        0x7fff_ffff_ffff_ffff,
        0x8000_0000_0000_0000,
        0xffff_ffff_ffff_ffff,
    ] {
        vector(&rt, value)?;
    }
    // over-long, the tenth byte's upper payload bits, an eleventh byte
    print!(rt; "80 00")?;
    show_read(&rt, b"\x80\x00")?;
    print!(rt; "80 x 9, 02")?;
    show_read(&rt, b"\x80\x80\x80\x80\x80\x80\x80\x80\x80\x02")?;
    print!(rt; "81, 80 x 8, 7e")?;
    show_read(&rt, b"\x81\x80\x80\x80\x80\x80\x80\x80\x80\x7e")?;
    print!(rt; "80 x 10, 00")?;
    show_read(&rt, b"\x80\x80\x80\x80\x80\x80\x80\x80\x80\x80\x00")
}
