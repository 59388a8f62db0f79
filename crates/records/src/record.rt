// Stored records: key length, value length, the deadline where the set has one, key, value.
ghost use Rattle.std.specs.Prelude.{◌≡◌, ◌+◌, ◌≤◌, length};
ghost use Rattle.hash_parts.specs.Setting.{bytes_per_record};
ghost use Rattle.records.specs.Area.{copied, over, same_bytes, spanned, written};
ghost use Rattle.records.specs.Record.{deadline_bytes, deadline_in, encoded_size, record_at, record_bytes, record_of};
ghost use Rattle.hash_parts.specs.Outcome.{outcome_of};
ghost use Rattle.records.specs.Uleb128.{uleb128};

use crate::varint::{put_varint, read_varint, varint_bytes};
use hash_parts::duration::NEVER_EXPIRES;
use hash_parts::error::SegmentCacheBuildError;
use hash_parts::setting::SegmentExpiry;

// A part of a slice of bytes. Not the slice itself: a caller in C is given its place.
#[derive(Clone, Copy, Debug, PartialEq, Eq)]
pub struct Span {
    pub at: usize,
    pub len: usize,
}

// A record that was read: where it begins, how many bytes stand before its key, where key and
// value stand, where it ends and the next one may begin, and its deadline. The end is the position
// just after the value, counted as the location is.
#[derive(Clone, Copy, Debug, PartialEq, Eq)]
pub struct RecordRef {
    pub location: usize,
    pub key_offset: usize,
    pub key: Span,
    pub value: Span,
    pub end: usize,
    pub expires_at: u16,
}

// Stored records, and whether they keep deadlines.
#[derive(Clone, Copy)]
pub struct Records<'a> {
    pub bytes: &'a [u8],
    pub expiry: SegmentExpiry,
}

// How many bytes a record takes whose key and value have these lengths.
pub fn encoded_record_bytes(
    expiry: SegmentExpiry,
    key_bytes: usize,
    value_bytes: usize,
) -> Result<usize, SegmentCacheBuildError>
    ensures { outcome_of result ≡ encoded_size expiry key_bytes value_bytes }
{
    let header = varint_bytes(key_bytes) + varint_bytes(value_bytes) + expiry.bytes_per_record();
    let overflow = SegmentCacheBuildError::CapacityOverflow;
    let value_at = header.checked_add(key_bytes).ok_or(overflow)?;
    value_at.checked_add(value_bytes).ok_or(overflow)
}

// Writes a record to the front of an arena's rest, which is lent from the first free byte, and says
// how many bytes it wrote: none where the record does not fit, which a push asks before. A number and no Option: a
// call that could not fail stays one.
pub fn append_record(
    rest: &mut [u8],
    expiry: SegmentExpiry,
    key: &[u8],
    value: &[u8],
    expires_at: u16,
) -> usize
    ensures { (result ≡ (written (record_bytes expiry key.now value.now expires_at) rest.old).answer.value) × (rest.new ≡ (written (record_bytes expiry key.now value.now expires_at) rest.old).area) }
{
    let Ok(size) = encoded_record_bytes(expiry, key.len(), value.len()) else {
        return 0;
    };
    if rest.len() < size {
        return 0;
    }
    put_record(rest, expiry, key, value, expires_at);
    size
}

fn put_record(rest: &mut [u8], expiry: SegmentExpiry, key: &[u8], value: &[u8], expires_at: u16)
    requires { length (record_bytes expiry key.now value.now expires_at) ≤ length rest.old }
    ensures { rest.new ≡ over (record_bytes expiry key.now value.now expires_at) rest.old }
{
    let mut at = put_varint(rest, key.len());
    at += put_varint(&mut rest[at..], value.len());
    at += put_deadline(&mut rest[at..], expiry, expires_at);
    at += put_bytes(&mut rest[at..], key);
    put_bytes(&mut rest[at..], value);
}

// Each writes to the front of an area, and gives how many bytes it wrote.
fn put_deadline(out: &mut [u8], expiry: SegmentExpiry, expires_at: u16) -> usize
    requires { length (deadline_bytes expiry expires_at) ≤ length out.old }
    ensures { (result ≡ length (deadline_bytes expiry expires_at)) × (out.new ≡ over (deadline_bytes expiry expires_at) out.old) }
{
    let SegmentExpiry::Relative16 { tick: _ } = expiry else {
        return 0;
    };
    put_bytes(out, &expires_at.to_le_bytes())
}

fn put_bytes(out: &mut [u8], bytes: &[u8]) -> usize
    requires { length bytes.now ≤ length out.old }
    ensures { (result ≡ length bytes.now) × (out.new ≡ over bytes.now out.old) }
{
    copy_bytes(&mut out[..bytes.len()], bytes);
    bytes.len()
}

// Copies bytes over an area of their length; one of another length stays as it was. By a loop, which the compiler makes in place:
// the library's copy is a call, and of what an archive for C does not hold.
pub fn copy_bytes(out: &mut [u8], bytes: &[u8])
    ensures { out.new ≡ copied bytes.now out.old }
{
    if out.len() == bytes.len() {
        for (i, byte) in bytes.iter().enumerate() {
            out[i] = *byte;
        }
    }
}

impl Records<'_> {
    // The record at a position. Most prefixes take one byte: where both do they are read at once.
    pub fn record_at(self, location: usize) -> Option<RecordRef>
        ensures { result ≡ record_at self.entry.expiry self.entry.bytes.now location }
    {
        if let Some([key_len @ 0..128, value_len @ 0..128, ..]) = self.bytes.get(location..) {
            return self.record_of(
                location,
                usize::from(*key_len),
                usize::from(*value_len),
                location + 2,
            );
        }
        let (key_len, cursor) = read_varint(self.bytes, location)?;
        let (value_len, cursor) = read_varint(self.bytes, cursor)?;
        self.record_of(location, key_len, value_len, cursor)
    }

    // The record at a position whose lengths were read and end at cursor. The lengths are free, so
    // their sums may overflow.
    fn record_of(
        self,
        location: usize,
        key_len: usize,
        value_len: usize,
        cursor: usize,
    ) -> Option<RecordRef>
        requires { (location ≤ cursor) × (cursor ≤ length self.bytes.now) }
        ensures { result ≡ record_of self.entry.expiry self.entry.bytes.now location key_len value_len cursor }
    {
        let key_at = cursor + self.expiry.bytes_per_record();
        let value_at = key_at.checked_add(key_len)?;
        let end = value_at.checked_add(value_len)?;
        if end > self.bytes.len() {
            return None;
        }
        Some(RecordRef {
            location,
            key_offset: key_at - location,
            key: Span {
                at: key_at,
                len: key_len,
            },
            value: Span {
                at: value_at,
                len: value_len,
            },
            end,
            expires_at: self.deadline_at(cursor),
        })
    }

    fn deadline_at(self, at: usize) -> u16
        requires { at + bytes_per_record self.expiry ≤ length self.bytes.now }
        ensures { result ≡ deadline_in self.entry.expiry self.entry.bytes.now at }
    {
        match self.expiry {
            SegmentExpiry::None => NEVER_EXPIRES,
            SegmentExpiry::Relative16 { tick: _ } => {
                u16::from_le_bytes([self.bytes[at], self.bytes[at + 1]])
            }
        }
    }
}

// The most bytes that are compared in place.
const SHORT_BYTES: usize = 64;

// Most keys are short: they are compared in place, since the library's comparison is a call. Longer bytes are worth it.
#[inline(always)]
pub fn same_bytes(a: &[u8], b: &[u8]) -> bool
    ensures { result ≡ same_bytes a.now b.now }
{
    if a.len() != b.len() {
        return false;
    }
    if a.len() > SHORT_BYTES {
        return same_long(a, b);
    }
    same_words(a, b)
}

// Apart, and as what seldom comes: so a search through the index keeps what it needs at hand.
#[cold]
#[inline(never)]
fn same_long(a: &[u8], b: &[u8]) -> bool
    ensures { result ≡ same_bytes a.now b.now }
{
    a == b
}

// Eight at a time, and the bytes behind the last whole eight.
#[inline(always)]
fn same_words(a: &[u8], b: &[u8]) -> bool
    requires { length a.now ≡ length b.now }
    ensures { result ≡ same_bytes a.now b.now }
{
    let (words, rest) = a.as_chunks::<8>();
    let (other_words, other_rest) = b.as_chunks::<8>();
    for (i, word) in words.iter().enumerate() {
        if *word != other_words[i] {
            return false;
        }
    }
    same_each(rest, other_rest)
}

// One by one.
fn same_each(a: &[u8], b: &[u8]) -> bool
    requires { length a.now ≡ length b.now }
    ensures { result ≡ same_bytes a.now b.now }
{
    a.iter().zip(b).all(|(x, y)| x == y)
}

// The bytes of a value, where they stand in the arena; no bytes for a span that leaves it.
pub fn value_slice(arena: &[u8], span: Span) -> &[u8]
    ensures { result.now ≡ spanned arena.now span }
{
    let Some(rest) = arena.get(span.at..) else {
        return &[];
    };
    let Some(found) = rest.get(..span.len) else {
        return &[];
    };
    found
}
