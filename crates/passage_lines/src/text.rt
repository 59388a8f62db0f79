// The kinds of a field: numbers, durations, layouts, tick lengths and lifetimes.
ghost use Rattle.std.specs.Prelude.{◌≡◌, ◌≤◌, ◌<◌};
ghost use Rattle.passage_lines.specs.Text.{digit_in, duration_of, layout_of, lifetime_of, number_in, tick_length_of};

use hash_parts::duration::Duration;
use hash_parts::setting::SegmentExpiry;

// A character as a digit of a base, in small letters from ten on: `char::to_digit` takes large ones too.
#[tactic(auto, using(std::proofs::lemmas::Bool::Decides::nat_tests), unfolding(crate::specs::Text::digit_in, crate::specs::Text::digit_of))]
pub(crate) fn digit(character: u8, base: u64) -> Option<u64>
    requires { base ≤ 16 }
    ensures { result ≡ digit_in base character }
{
    let value = match character {
        b'0'..=b'9' => character - b'0',
        b'a'..=b'f' => character - b'a' + 10,
        _ => return None,
    };
    Some(u64::from(value)).filter(|digit| *digit < base)
}

// One digit or more, for a number of at most max. `str::parse` takes a sign too.
#[tactic(auto, using(std::proofs::lemmas::Bool::Decides::nat_tests, crate::proofs::Numbers::in_limit, crate::proofs::Numbers::number_bad, crate::proofs::Numbers::number_next, crate::proofs::Numbers::number_none, crate::proofs::Numbers::number_past, crate::proofs::Numbers::number_start, crate::proofs::Numbers::spelled_end))]
pub(crate) fn parse_number(text: &[u8], base: u64, max: u64) -> Option<u64>
    requires { (0 < base) × (base ≤ 16) }
    ensures { result ≡ number_in base max text.now }
{
    if text.is_empty() {
        return None;
    }
    let mut value = 0u64;
    for character in text {
        let next = digit(*character, base)?;
        value = value.checked_mul(base)?.checked_add(next)?;
        if value > max {
            return None;
        }
    }
    Some(value)
}

// Seconds, a point and nine digits.
#[tactic(auto, using(crate::proofs::Numbers::number_limit, crate::proofs::Numbers::duration_short, crate::proofs::Numbers::duration_no_point, crate::proofs::Numbers::duration_is))]
pub(crate) fn parse_duration(text: &[u8]) -> Option<Duration>
    ensures { result ≡ duration_of text.now }
{
    let point = text.len().checked_sub(10)?;
    if text[point] != b'.' {
        return None;
    }
    let secs = parse_number(&text[..point], 10, u64::MAX)?;
    let nanos = parse_number(&text[point + 1..], 10, 999_999_999)?;
    Some(Duration {
        secs,
        nanos: nanos as u32,
    })
}

// Whether the layout is packed.
#[tactic(auto, unfolding(crate::specs::Text::layout_of))]
pub(crate) fn parse_layout(text: &[u8]) -> Option<bool>
    ensures { result ≡ layout_of text.now }
{
    if text == b"packed".as_slice() {
        return Some(true);
    }
    (text == b"words".as_slice()).then_some(false)
}

#[tactic(auto, unfolding(crate::specs::Text::tick_length_of))]
pub(crate) fn parse_tick_length(text: &[u8]) -> Option<SegmentExpiry>
    ensures { result ≡ tick_length_of text.now }
{
    if text == b"none".as_slice() {
        return Some(SegmentExpiry::None);
    }
    let tick = parse_duration(text)?;
    Some(SegmentExpiry::Relative16 { tick })
}

// None is a lifetime without end.
#[tactic(auto, unfolding(crate::specs::Text::lifetime_of))]
pub(crate) fn parse_lifetime(text: &[u8]) -> Option<Option<Duration>>
    ensures { result ≡ lifetime_of text.now }
{
    if text == b"never".as_slice() {
        return Some(None);
    }
    Some(Some(parse_duration(text)?))
}
