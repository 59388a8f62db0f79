// The records of a finished set: segments of the filled arena.
ghost use Rattle.std.specs.Prelude.{◌≡◌, ◌+◌, ◌^◌, ◌<◌, ◌≤◌, take};
ghost use Rattle.index.specs.View.{in_segment, record_in, ref_moved};

use crate::word::SEGMENT_BYTES;
use hash_parts::setting::SegmentExpiry;
use records::record::{RecordRef, Records, Span};

// What a reader must know of a set: whether records keep a deadline, how many bytes of the arena
// are filled, and how many segments there are.
#[derive(Clone, Copy)]
pub struct SegmentView {
    pub expiry: SegmentExpiry,
    pub filled: usize,
    pub segments: usize,
}

// The areas that hold the records of a finished set: where each segment starts in the arena, how many
// bytes it has, and the arena. A caller lends them, and the view is the state's, so they stay two. Reading asks of each
// place whether it is inside, so there is nothing that they must fit.
#[derive(Clone, Copy)]
pub struct SegmentAreas<'a> {
    pub starts: &'a [u64],
    pub lengths: &'a [u64],
    pub arena: &'a [u8],
}

impl SegmentView {
    // The record under a stored location, which is segment × 2^32 + offset, plus 1. Its spans count
    // from the arena's start, its end as its location does: in its segment.
    pub fn record_at_location(self, areas: SegmentAreas<'_>, stored: u64) -> Option<RecordRef>
        ensures { result ≡ record_in self areas.entry.arena.now areas.entry.starts.now areas.entry.lengths.now stored }
    {
        let location = stored.checked_sub(1)?;
        let segment = (location / SEGMENT_BYTES) as usize;
        if segment >= self.segments {
            return None;
        }
        let start = *areas.starts.get(segment)?;
        let length = *areas.lengths.get(segment)?;
        record_in_segment(self, areas.arena, start, length, location)
    }
}

// A segment that is not inside the filled arena holds no readable record.
fn record_in_segment(
    view: SegmentView,
    arena: &[u8],
    start: u64,
    length: u64,
    location: u64,
) -> Option<RecordRef>
    ensures { result ≡ in_segment view.expiry (take view.filled arena.now) start length location }
{
    let filled = &arena[..view.filled.min(arena.len())];
    let begin = start as usize;
    let bytes = filled.get(begin..)?.get(..length as usize)?;
    let expiry = view.expiry;
    let records = Records { bytes, expiry };
    let read = records.record_at((location % SEGMENT_BYTES) as usize)?;
    Some(moved_record(read, location, begin))
}

// A record of a segment, with its location in the set and its spans in the arena. Its end wraps
// only for a segment number that no set has.
fn moved_record(read: RecordRef, location: u64, begin: usize) -> RecordRef
    requires { (begin + read.key.at < 2 ^ 64) × (begin + read.value.at < 2 ^ 64) × (read.location ≤ read.end) }
    ensures { result ≡ ref_moved read location begin }
{
    let key = read.key;
    let value = read.value;
    RecordRef {
        location: location as usize,
        key_offset: read.key_offset,
        key: Span {
            at: begin + key.at,
            len: key.len,
        },
        value: Span {
            at: begin + value.at,
            len: value.len,
        },
        end: location.wrapping_add((read.end - read.location) as u64) as usize,
        expires_at: read.expires_at,
    }
}
