// Worked trials of the sets, run: each line says what was asked and what came out.
#![tactic(auto)]

mod areas;
mod example;
mod file;
mod orders;
mod seventeen;
mod targets;

use crate::areas::{show_bytes, show_number};
use hash_parts::duration::{Duration, encode_expiry_at_tick, lives_at_tick};
use hash_parts::hash::{hash_tag, packed_control_tag, packed_secondary_tag, reduce_hash};
use hash_parts::setting::SegmentExpiry;
use hash_parts::zero_bytes::zero_byte_high_bits;
use index::filter::negative_filter_location;
use records::varint::write_varint;
use std::io;

fn prefix(rt: &impl Print, length: usize) -> io::Result<()> {
    let mut out = [0; 10];
    let Ok(count) = write_varint(&mut out, length) else {
        return println!(rt; "refused");
    };
    print!(rt; "length {length}:")?;
    show_bytes(rt, out.get(..count).unwrap_or(&[]))
}

fn lifetime(rt: &impl Print, secs: u64, nanos: u32) -> io::Result<()> {
    let expiry = SegmentExpiry::Relative16 {
        tick: Duration { secs: 1, nanos: 0 },
    };
    let deadline = encode_expiry_at_tick(expiry, Some(Duration { secs, nanos }), 0);
    show_number(rt, "deadline", deadline.map(usize::from))
}

fn hashes(rt: &impl Print) -> io::Result<()> {
    println!(rt; "hash 2^63, 3 buckets: bucket {}", reduce_hash(1 << 63, 3))?;
    println!(rt;
        "hash 2^64 - 1, 3 buckets: bucket {}",
        reduce_hash(u64::MAX, 3)
    )?;
    let last = hash_tag(u64::MAX);
    println!(rt; "its tag {last:x}")?;
    println!(rt; "its control byte {}", packed_control_tag(last))?;
    println!(rt; "its rest {:x}", packed_secondary_tag(last))?;
    let tag = hash_tag(0x0000_fe00_0000_0000);
    println!(rt; "hash 0x0000fe0000000000: tag {tag}")?;
    println!(rt; "its control byte {}", packed_control_tag(tag))?;
    println!(rt; "its rest {}", packed_secondary_tag(tag))?;
    println!(rt; "hash 0: control byte {}", packed_control_tag(0))?;
    println!(rt; "its rest {}", packed_secondary_tag(0))?;
    let spot = negative_filter_location(1, 0);
    println!(rt; "filter, hash 0: word {}", spot.word)?;
    println!(rt; "its mask {}", spot.mask)?;
    println!(rt; "zero bytes of 0x0100 {:x}", zero_byte_high_bits(0x0100))
}

fn lives(rt: &impl Print, deadline: u16, tick: u64) -> io::Result<()> {
    let lives = lives_at_tick(deadline, tick);
    println!(rt; "{}", if lives { "live" } else { "lapsed" })
}

fn main(rt: HostRuntime) -> io::Result<()> {
    for length in [127, 128, 16_383, 16_384] {
        prefix(&rt, length)?;
    }
    hashes(&rt)?;
    lifetime(&rt, 65_534, 0)?;
    lifetime(&rt, 65_534, 1)?;
    lifetime(&rt, 0, 0)?;
    lives(&rt, 0, 0)?;
    example::run(&rt)?;
    targets::run(&rt)?;
    orders::run(&rt)?;
    seventeen::run(&rt)
}
