// What a line of the input asks for.
ghost use Rattle.std.specs.Prelude.{◌≡◌, unwrap_or};
ghost use Rattle.passage_lines.specs.Command.{close_form, command_in, command_of, get_form, open_form, put_form, setting_form};
ghost use Rattle.passage_lines.specs.Fields.{fields_left};

use crate::fields::{Fields, parse_bytes};
use crate::text::{parse_layout, parse_lifetime, parse_number, parse_tick_length};
use hash_parts::duration::Duration;
use hash_parts::setting::SegmentCacheConfig;
use records::record::Span;

// A longer line is bad.
pub(crate) const MAX_LINE_BYTES: usize = 8_192;

// The spans are the parts of the line that spell key and value, of length 0 for `-`.
#[derive(Clone, Copy, Debug, PartialEq, Eq)]
pub enum Command {
    Open {
        records: usize,
        config: SegmentCacheConfig,
    },
    Put {
        hash: u64,
        key: Span,
        value: Span,
        ttl: Option<Duration>,
    },
    Close {
        target: usize,
    },
    Get {
        hash: u64,
        key: Span,
        tick: u64,
    },
    Bad,
}

// The command of a line, given without its line feed.
#[tactic(auto, unfolding(crate::specs::Command::command_of))]
pub fn parse_line(line: &[u8]) -> Command
    ensures { result ≡ command_of line.now }
{
    if line.len() > MAX_LINE_BYTES {
        return Command::Bad;
    }
    parse_fields(Fields::of(line)).unwrap_or(Command::Bad)
}

// What the fields of a line ask for, the first of which is its word. It is compared by `==`: of a pattern that is
// a byte string a proof knows the length alone.
#[tactic(auto, unfolding(crate::specs::Command::word_form))]
fn parse_fields(mut fields: Fields) -> Option<Command>
    ensures { unwrap_or result Command.Bad ≡ command_in (fields_left fields.entry) }
{
    let word = fields.next()?.text;
    if word == b"open".as_slice() {
        return parse_open(fields);
    }
    if word == b"put".as_slice() {
        return parse_put(fields);
    }
    if word == b"close".as_slice() {
        return parse_close(fields);
    }
    if word == b"get".as_slice() {
        return parse_get(fields);
    }
    None
}

#[tactic(auto, unfolding(crate::specs::Command::next, crate::specs::Command::done, crate::specs::Command::open_form))]
fn parse_open(mut fields: Fields) -> Option<Command>
    ensures { unwrap_or result Command.Bad ≡ open_form (fields_left fields.entry) }
{
    let records = parse_number(fields.next()?.text, 10, u64::MAX)?;
    parse_setting(fields, records as usize)
}

#[tactic(auto, using(crate::proofs::Numbers::number_limit), unfolding(crate::specs::Command::next, crate::specs::Command::done, crate::specs::Command::setting_form))]
fn parse_setting(mut fields: Fields, records: usize) -> Option<Command>
    ensures { unwrap_or result Command.Bad ≡ setting_form records (fields_left fields.entry) }
{
    let occupancy = parse_number(fields.next()?.text, 10, 255)?;
    let packed_bucket_index = parse_layout(fields.next()?.text)?;
    let filter = parse_number(fields.next()?.text, 10, 255)?;
    let expiry = parse_tick_length(fields.next()?.text)?;
    fields.next().is_none().then_some(Command::Open {
        records,
        config: SegmentCacheConfig {
            expiry,
            target_occupied_slots: occupancy as u8,
            packed_bucket_index,
            negative_filter_bits_per_entry: filter as u8,
        },
    })
}

#[tactic(auto, unfolding(crate::specs::Command::next, crate::specs::Command::done, crate::specs::Command::put_form))]
fn parse_put(mut fields: Fields) -> Option<Command>
    ensures { unwrap_or result Command.Bad ≡ put_form (fields_left fields.entry) }
{
    let hash = parse_number(fields.next()?.text, 16, u64::MAX)?;
    let key = parse_bytes(fields.next()?)?;
    let value = parse_bytes(fields.next()?)?;
    let ttl = parse_lifetime(fields.next()?.text)?;
    fields.next().is_none().then_some(Command::Put {
        hash,
        key,
        value,
        ttl,
    })
}

#[tactic(auto, unfolding(crate::specs::Command::next, crate::specs::Command::done, crate::specs::Command::close_form))]
fn parse_close(mut fields: Fields) -> Option<Command>
    ensures { unwrap_or result Command.Bad ≡ close_form (fields_left fields.entry) }
{
    let target = parse_number(fields.next()?.text, 10, u64::MAX)? as usize;
    fields.next().is_none().then_some(Command::Close { target })
}

#[tactic(auto, unfolding(crate::specs::Command::next, crate::specs::Command::done, crate::specs::Command::get_form))]
fn parse_get(mut fields: Fields) -> Option<Command>
    ensures { unwrap_or result Command.Bad ≡ get_form (fields_left fields.entry) }
{
    let hash = parse_number(fields.next()?.text, 16, u64::MAX)?;
    let key = parse_bytes(fields.next()?)?;
    let tick = parse_number(fields.next()?.text, 10, u64::MAX)?;
    fields
        .next()
        .is_none()
        .then_some(Command::Get { hash, key, tick })
}
