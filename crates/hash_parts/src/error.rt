// Why a call is refused.
ghost use Rattle.std.specs.Prelude.{◌≡◌, Some};
ghost use Rattle.hash_parts.specs.Error.{error_number, error_sentence};

use std::error::Error;
use std::fmt;

#[derive(Clone, Copy, Debug, PartialEq, Eq)]
pub enum SegmentCacheBuildError {
    // Target bucket occupancy is not from one to seven.
    InvalidBucketOccupancy = 1,
    // A tick of no length cannot count deadlines.
    ZeroExpiryTick = 2,
    // More records than were announced or than a set holds, or fewer than were announced; no empty slot;
    // a size past 64 bits; of a rebuild, keep flags of another number than the source's segments, or a
    // segment that is not kept.
    CapacityOverflow = 3,
    // The key is in the set already.
    DuplicateKey = 4,
    // A lifetime was given to a set whose records keep no deadline.
    ExpiryDisabled = 5,
    // The deadline is past the last tick that a record can keep.
    ExpiryOutOfRange = 6,
    // The records need more segments than a location can number.
    ArenaTooLarge = 7,
    // The segment target is zero or above the largest.
    InvalidSegmentTarget = 8,
    // A duration has a whole second or more in its nanoseconds.
    InvalidNanoseconds = 9,
    // A lent area, or the arena's rest, is too short, where in the Rust an allocation fails; or at open the
    // arena is too long.
    AreaTooShort = 10,
    // State and areas don't belong together.
    InvalidState = 11,
    // The location does not hold the record that is to be reused.
    RecordMismatch = 12,
    // A block of the file runs past its end, or bytes follow the fifth.
    FileFraming = 13,
    // A kind of block is missing, unknown or out of place.
    FileKinds = 14,
    // A number in the file is out of its bounds, or the numbers don't fit together.
    FileContent = 15,
    // A key or value has more bytes than its columns of a chart room sheet show.
    FieldTooLong = 16,
}

impl SegmentCacheBuildError {
    // The refusal's number: const, which a From could not be.
    pub const fn number(self) -> u8
        ensures { result ≡ error_number self }
    {
        self as u8
    }
}

impl fmt::Display for SegmentCacheBuildError {
    ghost output = { λ e. Some (error_sentence e) };

    fn fmt<W: fmt::Write>(&self, f: &mut fmt::Formatter<W>) -> fmt::Result {
        f.write_str(match self {
            Self::InvalidBucketOccupancy => "a bucket is to hold from one to seven records",
            Self::ZeroExpiryTick => "a tick of no length counts no deadlines",
            Self::CapacityOverflow => "the number of records or bytes does not fit",
            Self::DuplicateKey => "the key is in the set already",
            Self::ExpiryDisabled => "the set keeps no deadlines, so a record can have no lifetime",
            Self::ExpiryOutOfRange => "the deadline is past the last tick",
            Self::ArenaTooLarge => "the records need too many segments",
            Self::InvalidSegmentTarget => "the segment target is zero or too large",
            Self::InvalidNanoseconds => "the nanoseconds make a second or more",
            Self::AreaTooShort => "an area has the wrong length",
            Self::InvalidState => "the state and the areas do not belong together",
            Self::RecordMismatch => "the location holds another record",
            Self::FileFraming => "the file's blocks do not end where the file does",
            Self::FileKinds => "the file's blocks are not those of a set",
            Self::FileContent => "the file's numbers do not fit together",
            Self::FieldTooLong => "a key or value is too long for its columns",
        })
    }
}

impl Error for SegmentCacheBuildError {}
