// The lines of a chart room sheet.
ghost use Rattle.std.specs.Prelude.{◌≡◌, ◌<◌, ◌≤◌, ◌+◌, ◌*◌, ◌-◌, length, []};
ghost use Rattle.records.specs.Area.{over, pasted};
ghost use Rattle.charts.specs.Line.{blank, deadline_text, line, lines, row};

use hash_parts::duration::NEVER_EXPIRES;
use texts::output::{put_decimal_before, put_hex, put_text};

// 64 columns and a line feed.
pub(crate) const LINE_BYTES: usize = 65;

// The first columns of key and value, and the columns behind slot number and deadline.
const SLOT_END: usize = 8;

const KEY_AT: usize = 9;

const VALUE_AT: usize = 34;

const DEADLINE_AT: usize = 59;

const DEADLINE_END: usize = 64;

// Writes the fields of a row over a line. A line is lent as a slice here and below: as an array it would be had
// of a page only by way of an option.
pub(crate) fn put_line(out: &mut [u8], slot: usize, key: &[u8], value: &[u8], deadline: u16)
    requires { (length out.old ≡ 65) × (slot < 100000000) × (length key.now ≤ 12) × (length value.now ≤ 12) }
    ensures { out.new ≡ line (row slot key.now value.now deadline) }
{
    put_blank(out);
    put_decimal_before(out, SLOT_END, slot as u64);
    put_hex(out, KEY_AT, key);
    put_hex(out, VALUE_AT, value);
    put_deadline(out, deadline);
}

fn put_deadline(out: &mut [u8], deadline: u16)
    requires { length out.old ≡ 65 }
    ensures { out.new ≡ pasted (64 - length (deadline_text deadline)) (deadline_text deadline) out.old }
{
    if deadline == NEVER_EXPIRES {
        put_text(out, DEADLINE_AT, b"never");
        return;
    }
    put_decimal_before(out, DEADLINE_END, deadline as u64);
}

fn put_blank(out: &mut [u8])
    requires { length out.old ≡ 65 }
    ensures { out.new ≡ blank }
{
    out[..DEADLINE_END].fill(b' ');
    out[DEADLINE_END] = b'\n';
}

// Fills the front of an area with blank lines. They are counted: nothing is known of an area that was written
// to by chunks.
pub(crate) fn put_blanks(area: &mut [u8], count: usize)
    requires { 65 * count ≤ length area.old }
    ensures { area.new ≡ over (lines count []) area.old }
{
    for number in 0..count {
        let at = number * LINE_BYTES;
        put_blank(&mut area[at..at + LINE_BYTES]);
    }
}
