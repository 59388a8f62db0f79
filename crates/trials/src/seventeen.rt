// Seventeen records of hash 0 with distinct keys, occupancy 7, filter bits 8: the last stands in
// bucket 2 and alone is marked. Through the calls of a builder.
use crate::areas::TrialAreas;
use hash_parts::setting::SegmentCacheConfig;
use std::io;

const RECORDS: u8 = 17;

pub(crate) fn run(rt: &impl Print) -> io::Result<()> {
    let mut areas: TrialAreas<24, 3, 64> = TrialAreas::filled(0);
    let config = SegmentCacheConfig::without_expiry().with_negative_filter_bits_per_entry(8);
    let Ok(mut builder) = areas.open(config, usize::from(RECORDS)) else {
        return println!(rt; "refused");
    };
    println!(rt; "17 records of hash 0: buckets {}", builder.bucket_count)?;
    println!(rt; "filter words {}", builder.filter_words)?;
    for key in 0..RECORDS {
        let pushed = areas.push(rt, &mut builder, 0, &[key], b"", None)?;
        // The slots of the last two records, and the filter after each.
        if let Some(pushed) = pushed
            && key >= 15
        {
            let [first, second, third] = areas.filter;
            println!(rt; "slot {}", pushed.slot)?;
            println!(rt; "filter {first} {second} {third}")?;
        }
    }
    Ok(())
}
