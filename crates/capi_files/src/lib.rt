// Sets as files, for C: how many bytes a set takes, writing it, what a file's areas take, loading it. Each area is
// an argument of its own, as C lends it.
#![tactic(auto)]

ghost use Rattle.std.specs.Prelude.{◌≡◌};
ghost use Rattle.std.proofs.Common.{lit<};
ghost use Rattle.capi.specs.Calls.{told};
ghost use Rattle.capi_files.specs.Files.{exported_file_bytes, exported_file_needs, exported_load_file, exported_write_file, load_words, needs_words, write_words};

use capi::answers::{lent_state, tell};
use capi::words::{MALFORMED, SET_WORDS, ToWords};
use files::load::{FileNeeds, file_needs, load_file};
use files::write::{file_bytes, write_file};
use index::view::SegmentAreas;
use sets::cache::FrozenSegmentCache;

// Words of the areas of a file's set, and the bytes of its arena.
const NEEDS_WORDS: usize = 5;

// A type of this crate, since neither the trait nor FileNeeds is.
#[derive(Clone, Copy)]
struct Needed(FileNeeds);

impl ToWords<NEEDS_WORDS> for Needed {
    ghost words_of = { λ n. needs_words n.0 };

    ghost fits = { lit< tt };

    fn to_words(self) -> [u64; NEEDS_WORDS] {
        [
            self.0.index as u64,
            self.0.filter as u64,
            self.0.starts as u64,
            self.0.lengths as u64,
            self.0.arena as u64,
        ]
    }
}

#[tactic(auto, unfolding(crate::specs::Files::exported_file_bytes))]
#[unsafe(no_mangle)]
pub extern "C" fn segment_cache_file_bytes(
    set: &[u64],
    starts: &[u64],
    lengths: &[u64],
    bytes: &mut [u64],
) -> u64
    ensures { told result bytes.new ≡ exported_file_bytes set.now starts.now lengths.now bytes.old }
{
    let Some(set) = lent_state::<1, FrozenSegmentCache>(set, bytes) else {
        return MALFORMED;
    };
    let answer = file_bytes(set, starts, lengths);
    tell(answer, bytes)
}

// Writes a set to the front of the file area, and the file's length to the word.
#[tactic(auto, unfolding(crate::specs::Files::exported_write_file))]
#[unsafe(no_mangle)]
pub extern "C" fn segment_cache_write_file(
    set: &[u64],
    index: &[u64],
    filter: &[u64],
    starts: &[u64],
    lengths: &[u64],
    arena: &[u8],
    file: &mut [u8],
    bytes: &mut [u64],
) -> u64
    ensures { write_words result file.new bytes.new ≡ exported_write_file set.now index.now filter.now starts.now lengths.now arena.now file.old bytes.old }
{
    let Some(set) = lent_state::<1, FrozenSegmentCache>(set, bytes) else {
        return MALFORMED;
    };
    let areas = SegmentAreas {
        starts,
        lengths,
        arena,
    };
    let answer = write_file(set, index, filter, areas, file);
    tell(answer, bytes)
}

// The five words: index, filter, starts, lengths, and the arena's bytes.
#[tactic(auto, unfolding(crate::specs::Files::exported_file_needs))]
#[unsafe(no_mangle)]
pub extern "C" fn segment_cache_file_needs(file: &[u8], needs: &mut [u64]) -> u64
    ensures { told result needs.new ≡ exported_file_needs file.now needs.old }
{
    if needs.len() != NEEDS_WORDS {
        return MALFORMED;
    }
    tell(file_needs(file).map(Needed), needs)
}

// Loads a file into the areas, and stores the set's state to the words.
#[tactic(auto, unfolding(crate::specs::Files::exported_load_file))]
#[unsafe(no_mangle)]
pub extern "C" fn segment_cache_load_file(
    file: &[u8],
    index: &mut [u64],
    filter: &mut [u64],
    starts: &mut [u64],
    lengths: &mut [u64],
    arena: &mut [u8],
    set: &mut [u64],
) -> u64
    ensures { load_words result index.new filter.new starts.new lengths.new arena.new set.new ≡ exported_load_file file.now index.old filter.old starts.old lengths.old arena.old set.old }
{
    if set.len() != SET_WORDS {
        return MALFORMED;
    }
    let answer = load_file(file, index, filter, starts, lengths, arena);
    tell(answer, set)
}
