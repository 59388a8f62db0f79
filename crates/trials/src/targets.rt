// The two target trials: no expiry, target 4,096. Records of 4,096 and 2 bytes make two segments; of
// 4,095 and 3 bytes, one. The first two in the other order make one.
use crate::areas::{TrialAreas, show_number};
use hash_parts::setting::SegmentCacheConfig;
use std::io;

// What the first of two records takes, and the number of segments with both.
fn segments_of(
    rt: &impl Print,
    key: &[u8],
    value: &[u8],
    second_key: &[u8],
    second_value: &[u8],
) -> io::Result<()> {
    let mut areas: TrialAreas<8, 0, 4_200> = TrialAreas::filled(0);
    let Ok(mut builder) = areas.open(SegmentCacheConfig::without_expiry(), 2) else {
        return println!(rt; "refused");
    };
    areas.push(rt, &mut builder, 1, key, value, None)?;
    println!(rt; "first record takes {}", builder.filled)?;
    areas.push(rt, &mut builder, 2, second_key, second_value, None)?;
    let set = areas.finish(builder, 4_096);
    show_number(rt, "segments", set.map(|set| set.segments))
}

pub(crate) fn run(rt: &impl Print) -> io::Result<()> {
    let value = [0; 4_092];
    println!(rt; "target 4096, records of 4096 and 2 bytes")?;
    segments_of(rt, b"a", &value, b"", b"")?;
    println!(rt; "target 4096, records of 4095 and 3 bytes")?;
    segments_of(rt, b"a", &value[..4_091], b"b", b"")?;
    println!(rt; "target 4096, records of 2 and 4096 bytes")?;
    segments_of(rt, b"", b"", b"a", &value)
}
