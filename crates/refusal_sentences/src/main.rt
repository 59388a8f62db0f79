// Every refusal as it is printed: its number, and its sentence.
#![tactic(auto)]

use hash_parts::error::SegmentCacheBuildError;
use std::io;

const REFUSALS: [SegmentCacheBuildError; 16] = [
    SegmentCacheBuildError::InvalidBucketOccupancy,
    SegmentCacheBuildError::ZeroExpiryTick,
    SegmentCacheBuildError::CapacityOverflow,
    SegmentCacheBuildError::DuplicateKey,
    SegmentCacheBuildError::ExpiryDisabled,
    SegmentCacheBuildError::ExpiryOutOfRange,
    SegmentCacheBuildError::ArenaTooLarge,
    SegmentCacheBuildError::InvalidSegmentTarget,
    SegmentCacheBuildError::InvalidNanoseconds,
    SegmentCacheBuildError::AreaTooShort,
    SegmentCacheBuildError::InvalidState,
    SegmentCacheBuildError::RecordMismatch,
    SegmentCacheBuildError::FileFraming,
    SegmentCacheBuildError::FileKinds,
    SegmentCacheBuildError::FileContent,
    SegmentCacheBuildError::FieldTooLong,
];

fn main(rt: HostRuntime) -> io::Result<()> {
    for refusal in REFUSALS {
        println!(rt; "{}: {refusal}", refusal.number())?;
    }
    Ok(())
}
