// The chart room sheet: a set in lines, one to each record that the walk visits.
ghost use Rattle.std.specs.Prelude.{◌≡◌, true, ◌+◌, ◌*◌, ◌<◌, ◌≤◌, length};
ghost use Rattle.records.specs.Area.{over, pasted};
ghost use Rattle.charts.specs.Line.{line, lines, pages_for, sheet};
ghost use Rattle.charts.specs.Sheet.{after_sheet, chart_rows, pages_answer, row_count, row_fits, row_of, rows_fit, sheet_reply, sheet_result};

use crate::line::{LINE_BYTES, put_blanks, put_line};
use hash_parts::error::SegmentCacheBuildError;
use index::view::SegmentAreas;
use index::word::BUCKET_SLOTS;
use records::record::{RecordRef, value_slice};
use sets::cache::FrozenSegmentCache;
use sets::lookup::SetRecords;

// The lines of a page, and its bytes.
const PAGE_LINES: usize = 50;

pub const PAGE_BYTES: usize = PAGE_LINES * LINE_BYTES;

// The columns of key and value show so many bytes.
const FIELD_BYTES: usize = 12;

// How many pages a set's sheet has. A page takes 3,250 bytes.
#[tactic(auto, using(crate::proofs::Asked::count_passed, crate::proofs::Asked::count_refused, crate::proofs::Asked::slots_few), unfolding(crate::specs::Sheet::pages_answer, crate::specs::Sheet::ask_pages))]
pub fn sheet_pages(
    set: FrozenSegmentCache,
    index: &[u64],
    areas: SegmentAreas<'_>,
) -> Result<usize, SegmentCacheBuildError>
    ensures { sheet_reply result ≡ pages_answer set index.now areas.entry.starts.now areas.entry.lengths.now areas.entry.arena.now }
{
    let SegmentAreas {
        starts,
        lengths,
        arena,
    } = areas;
    if !set.areas_hold(index.len(), starts.len(), lengths.len(), arena.len()) {
        return Err(SegmentCacheBuildError::InvalidState);
    }
    let rows = count_rows(set.records(index, areas))?;
    Ok(rows.div_ceil(PAGE_LINES))
}

// Prints a set's sheet to the front of a page area, and says how many pages it has.
pub fn print_sheet(
    set: FrozenSegmentCache,
    index: &[u64],
    areas: SegmentAreas<'_>,
    page: &mut [u8],
) -> Result<usize, SegmentCacheBuildError>
    ensures { sheet_result result page.new ≡ after_sheet set index.now areas.entry.starts.now areas.entry.lengths.now areas.entry.arena.now page.old }
{
    let pages = sheet_pages(set, index, areas)?;
    if page.len() / PAGE_BYTES < pages {
        return Err(SegmentCacheBuildError::AreaTooShort);
    }
    write_sheet(set.records(index, areas), pages, page);
    Ok(pages)
}

// The first pass: counts the rows, and asks of each whether it fits.
fn count_rows(chart: SetRecords<'_>) -> Result<usize, SegmentCacheBuildError>
    requires { 8 * chart.index.buckets ≤ length chart.index.words.now }
    ensures { result ≡ row_count 0 (chart_rows chart.entry) }
{
    let mut rows = 0;
    for slot in 0..chart.index.buckets * BUCKET_SLOTS {
        let Some(entry) = chart.entry_at(slot) else {
            continue;
        };
        if !entry_fits(chart.areas.arena, entry) {
            return Err(SegmentCacheBuildError::FieldTooLong);
        }
        rows += 1;
    }
    Ok(rows)
}

// The second pass: a line to each row, and blank lines to the end of the last page.
fn write_sheet(chart: SetRecords<'_>, pages: usize, page: &mut [u8])
    requires slots { (8 * chart.index.buckets ≤ length chart.index.words.now) × (8 * chart.index.buckets ≤ 100000000) }
    requires fit { rows_fit (chart_rows chart) ≡ true }
    requires room { (pages ≡ pages_for (length (chart_rows chart))) × (3250 * pages ≤ length page.old) }
    ensures { page.new ≡ over (sheet (chart_rows chart.entry)) page.old }
{
    let rows = write_rows(chart, page);
    let at = rows * LINE_BYTES;
    put_blanks(&mut page[at..], pages * PAGE_LINES - rows);
}

// The walk of count_rows once more: that asks and counts, and this writes.
fn write_rows(chart: SetRecords<'_>, page: &mut [u8]) -> usize
    requires slots { (8 * chart.index.buckets ≤ length chart.index.words.now) × (8 * chart.index.buckets ≤ 100000000) }
    requires fit { rows_fit (chart_rows chart) ≡ true }
    requires room { 65 * length (chart_rows chart) ≤ length page.old }
    ensures count { let rows = chart_rows chart.entry in (result ≡ length rows) × (65 * result ≡ length (lines (length rows) rows)) }
    ensures page_after { let rows = chart_rows chart.entry in page.new ≡ over (lines (length rows) rows) page.old }
{
    let mut rows = 0;
    for slot in 0..chart.index.buckets * BUCKET_SLOTS {
        let Some(entry) = chart.entry_at(slot) else {
            continue;
        };
        rows = put_entry(page, rows, slot, entry, chart.areas.arena);
    }
    rows
}

// Whether key and value fit their columns.
fn entry_fits(arena: &[u8], entry: RecordRef) -> bool
    ensures { result ≡ row_fits (row_of arena.now (record { slot = 0; entry = entry })) }
{
    value_slice(arena, entry.key).len() <= FIELD_BYTES
        && value_slice(arena, entry.value).len() <= FIELD_BYTES
}

// Writes a record as the line of a number, and gives the number of the next line, which the next call takes.
fn put_entry(page: &mut [u8], number: usize, slot: usize, entry: RecordRef, arena: &[u8]) -> usize
    requires { (65 * number + 65 ≤ length page.old) × (slot < 100000000) × (row_fits (row_of arena.now (record { slot = slot; entry = entry })) ≡ true) }
    ensures { (result ≡ number + 1) × (page.new ≡ pasted (65 * number) (line (row_of arena.now (record { slot = slot; entry = entry }))) page.old) }
{
    let at = number * LINE_BYTES;
    let line = &mut page[at..at + LINE_BYTES];
    let key = value_slice(arena, entry.key);
    let value = value_slice(arena, entry.value);
    put_line(line, slot, key, value, entry.expires_at);
    number + 1
}
