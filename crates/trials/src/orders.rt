// Two orders of one list: 256 records of three bytes and one of two, target 3. Where the short record comes
// last it starts a segment of its own, the 257th, and finish is refused with 7; where it comes first the
// next record joins its segment, and there are 256.
use crate::areas::{TrialAreas, show_number};
use hash_parts::setting::SegmentCacheConfig;
use sets::builder::SegmentCacheBuilder;
use std::io;

impl TrialAreas<296, 0, 770> {
    // Pushes the records of three bytes: each has a key of one byte and no value.
    fn push_long(&mut self, rt: &impl Print, builder: &mut SegmentCacheBuilder) -> io::Result<()> {
        for key in 0..=u8::MAX {
            self.push(rt, builder, u64::from(key) << 56, &[key], b"", None)?;
        }
        Ok(())
    }

    // The record of two bytes has neither key nor value.
    fn push_short(&mut self, rt: &impl Print, builder: &mut SegmentCacheBuilder) -> io::Result<()> {
        self.push(rt, builder, 1, b"", b"", None)?;
        Ok(())
    }
}

// Shows the filled bytes and what finish answers.
fn show_order(rt: &impl Print, short_first: bool) -> io::Result<()> {
    let mut areas: TrialAreas<296, 0, 770> = TrialAreas::filled(0);
    let Ok(mut builder) = areas.open(SegmentCacheConfig::without_expiry(), 257) else {
        return println!(rt; "refused");
    };
    if short_first {
        areas.push_short(rt, &mut builder)?;
    }
    areas.push_long(rt, &mut builder)?;
    if !short_first {
        areas.push_short(rt, &mut builder)?;
    }
    println!(rt; "bytes {}", builder.filled)?;
    let set = areas.finish(builder, 3);
    show_number(rt, "segments", set.map(|set| set.segments))
}

pub(crate) fn run(rt: &impl Print) -> io::Result<()> {
    println!(rt; "target 3, 256 records of 3 bytes and then one of 2")?;
    show_order(rt, false)?;
    println!(rt; "target 3, the record of 2 bytes first")?;
    show_order(rt, true)
}
