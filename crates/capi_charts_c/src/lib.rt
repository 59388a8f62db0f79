// The calls of capi_charts for C, as a static library: each export is one call of the function of its name, with the same clauses.
#![tactic(auto)]

ghost use Rattle.std.specs.Prelude.{◌≡◌};
ghost use Rattle.capi.specs.Calls.{told};
ghost use Rattle.capi_charts.specs.Charts.{exported_print_sheet, exported_sheet_pages, sheet_words};

// How many pages a set's sheet has, to the word.
#[unsafe(no_mangle)]
pub extern "C" fn segment_cache_sheet_pages(
    set: &[u64],
    index: &[u64],
    starts: &[u64],
    lengths: &[u64],
    arena: &[u8],
    pages: &mut [u64],
) -> u64
    ensures { told result pages.new ≡ exported_sheet_pages set.now index.now starts.now lengths.now arena.now pages.old }
{
    capi_charts::segment_cache_sheet_pages(set, index, starts, lengths, arena, pages)
}

// Prints a set's sheet to the front of the page area, and the number of its pages to the word.
#[unsafe(no_mangle)]
pub extern "C" fn segment_cache_print_sheet(
    set: &[u64],
    index: &[u64],
    starts: &[u64],
    lengths: &[u64],
    arena: &[u8],
    page: &mut [u8],
    pages: &mut [u64],
) -> u64
    ensures { sheet_words result page.new pages.new ≡ exported_print_sheet set.now index.now starts.now lengths.now arena.now page.old pages.old }
{
    capi_charts::segment_cache_print_sheet(set, index, starts, lengths, arena, page, pages)
}
