// What is told of a whole set, for C: its chart room sheet. Each area is an argument of its own, as C lends it.
#![tactic(auto)]

ghost use Rattle.std.specs.Prelude.{◌≡◌};
ghost use Rattle.capi.specs.Calls.{told};
ghost use Rattle.capi_charts.specs.Charts.{exported_print_sheet, exported_sheet_pages, sheet_words};

use capi::answers::{lent_state, tell};
use capi::words::MALFORMED;
use charts::sheet::{print_sheet, sheet_pages};
use index::view::SegmentAreas;
use sets::cache::FrozenSegmentCache;

// How many pages a set's sheet has, to the word.
#[tactic(auto, unfolding(crate::specs::Charts::exported_sheet_pages))]
#[unsafe(no_mangle)]
pub extern "C" fn segment_cache_sheet_pages(
    set: &[u64],
    index: &[u64],
    starts: &[u64],
    lengths: &[u64],
    arena: &[u8],
    pages: &mut [u64],
) -> u64
    ensures { told result pages.new ≡ exported_sheet_pages set.now index.now starts.now lengths.now arena.now pages.old }
{
    let Some(set) = lent_state::<1, FrozenSegmentCache>(set, pages) else {
        return MALFORMED;
    };
    let areas = SegmentAreas {
        starts,
        lengths,
        arena,
    };
    let answer = sheet_pages(set, index, areas);
    tell(answer, pages)
}

// Prints a set's sheet to the front of the page area, and the number of its pages to the word.
#[tactic(auto, unfolding(crate::specs::Charts::exported_print_sheet))]
#[unsafe(no_mangle)]
pub extern "C" fn segment_cache_print_sheet(
    set: &[u64],
    index: &[u64],
    starts: &[u64],
    lengths: &[u64],
    arena: &[u8],
    page: &mut [u8],
    pages: &mut [u64],
) -> u64
    ensures { sheet_words result page.new pages.new ≡ exported_print_sheet set.now index.now starts.now lengths.now arena.now page.old pages.old }
{
    let Some(set) = lent_state::<1, FrozenSegmentCache>(set, pages) else {
        return MALFORMED;
    };
    let areas = SegmentAreas {
        starts,
        lengths,
        arena,
    };
    let answer = print_sheet(set, index, areas, page);
    tell(answer, pages)
}
