// The blocks of a file: a length of four bytes, a kind of two, the content. A block is told by the
// part of the file that begins with it.
ghost use Rattle.std.specs.Prelude.{true, ◌++◌, ◌≡◌, ◌-◌, ◌^◌, ◌<◌, ◌≤◌, length};
ghost use Rattle.hash_parts.specs.ZeroBytes.{bytes_of};
ghost use Rattle.records.specs.Area.{part};
ghost use Rattle.files.specs.Blocks.{behind, content_of, frames_well, is_whole, kind_in, kinds_from, size_in};
ghost use Rattle.files.specs.Kinds.{kind_number};

use crate::copies::{number_of, put_number};

const SIZE_BYTES: usize = 4;

pub(crate) const HEADER_BYTES: usize = 6;

const BLOCKS: u64 = 5;

// The five kinds, in the order in which their blocks stand in a file.
#[derive(Clone, Copy, Debug, PartialEq, Eq)]
pub(crate) enum BlockKind {
    Counts = 1,
    Lengths = 2,
    Index = 3,
    Filter = 4,
    Segments = 5,
}

impl BlockKind {
    fn number(self) -> u64
        ensures { result ≡ kind_number self }
    {
        self as u64
    }
}

fn size_in(rest: &[u8]) -> usize
    requires { 6 ≤ length rest.now }
    ensures { (result ≡ size_in rest.now) × (result < 2 ^ 32) }
{
    number_of(&rest[..SIZE_BYTES]) as usize
}

fn kind_in(rest: &[u8]) -> u64
    requires { 6 ≤ length rest.now }
    ensures { result ≡ kind_in rest.now }
{
    number_of(&rest[SIZE_BYTES..HEADER_BYTES])
}

// Whether the block ends in the file.
#[tactic(auto, unfolding(crate::specs::Blocks::is_whole))]
fn is_whole(rest: &[u8]) -> bool
    ensures { result ≡ is_whole rest.now }
{
    rest.len() >= HEADER_BYTES && rest.len() - HEADER_BYTES >= size_in(rest)
}

// The part of the file behind the block; nothing where it is not whole.
#[tactic(auto, using(crate::proofs::Positions::broken_behind, crate::proofs::Positions::whole_room))]
fn behind(rest: &[u8]) -> &[u8]
    ensures { result.now ≡ behind rest.now }
{
    if !is_whole(rest) {
        return &[];
    }
    &rest[HEADER_BYTES + size_in(rest)..]
}

// The content of the block; what there is of it where it is not whole.
fn content_in(rest: &[u8]) -> &[u8]
    ensures { result.now ≡ part 6 (size_in rest.now) rest.now }
{
    if rest.len() < HEADER_BYTES {
        return &[];
    }
    let size = size_in(rest).min(rest.len() - HEADER_BYTES);
    &rest[HEADER_BYTES..HEADER_BYTES + size]
}

// The content of the block that stands where that of a kind belongs.
#[tactic(auto, unfolding(crate::specs::Blocks::content_of))]
pub(crate) fn content_of(file: &[u8], kind: BlockKind) -> &[u8]
    ensures { result.now ≡ content_of (kind_number kind - 1) file.now }
{
    let mut rest = file;
    for _ in 1..kind.number() {
        rest = behind(rest);
    }
    content_in(rest)
}

// Whether no block runs past the file's end and nothing follows the fifth.
#[tactic(auto, using(crate::proofs::Positions::none_left, crate::proofs::Positions::some_left), unfolding(crate::specs::Blocks::frames_well))]
pub(crate) fn frames_well(file: &[u8]) -> bool
    ensures { result ≡ frames_well 5 file.now }
{
    let mut rest = file;
    for _ in 0..BLOCKS {
        if rest.is_empty() {
            return true;
        }
        if !is_whole(rest) {
            return false;
        }
        rest = behind(rest);
    }
    rest.is_empty()
}

// Whether the kinds are 1 to 5, in this order.
pub(crate) fn kinds_in_order(file: &[u8]) -> bool
    requires { frames_well 5 file.now ≡ true }
    ensures { result ≡ kinds_from 1 5 file.now }
{
    let mut rest = file;
    for kind in 1..=BLOCKS {
        if rest.is_empty() {
            return false;
        }
        if kind_in(rest) != kind {
            return false;
        }
        rest = behind(rest);
    }
    true
}

// Writes the header of a block whose content has a size.
pub(crate) fn put_header(out: &mut [u8], size: usize, kind: BlockKind)
    requires { length out.old ≡ 6 }
    ensures { out.new ≡ bytes_of 4 size ++ bytes_of 2 (kind_number kind) }
{
    let (size_bytes, kind_bytes) = out.split_at_mut(SIZE_BYTES);
    put_number(size_bytes, size as u64);
    put_number(kind_bytes, kind.number());
}
