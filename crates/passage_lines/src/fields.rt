// The fields of a line.
ghost use Rattle.std.specs.Prelude.{◌≡◌};
ghost use Rattle.std.specs.Iterator.{YieldsFirstBy, item_count};
ghost use Rattle.passage_lines.specs.Fields.{bytes, fields_of, read};

use crate::bytes::find_byte;
use crate::hex::hex_length;
use records::record::Span;

// A field's place in the line, and its characters.
#[derive(Clone, Copy)]
pub(crate) struct Field<'a> {
    pub(crate) at: usize,
    pub(crate) text: &'a [u8],
}

// The fields of a line from a position on, one space between two of them: none past the line's end.
#[derive(Drop)]
pub(crate) struct Fields<'a> {
    line: &'a [u8],
    at: usize,
}

impl<'a> Fields<'a> {
    ghost use Rattle.passage_lines.specs.Fields.{fields_left};

    #[tactic(auto, using(crate::proofs::Splitting::fields_all))]
    pub(crate) fn of(line: &'a [u8]) -> Fields<'a>
        ensures { fields_left result ≡ fields_of line.now }
    {
        Fields { line, at: 0 }
    }
}

impl<'a> Iterator for Fields<'a> {
    ghost use Rattle.passage_lines.specs.Fields.{fields_left};

    type Item = Field<'a>;

    ghost next_gives = { YieldsFirstBy read fields_left };

    ghost remaining = { item_count fields_left };

    fn next(&mut self) -> Option<Field<'a>> {
        let rest = self.line.get(self.at..)?;
        let text = &rest[..find_byte(rest, b' ').unwrap_or(rest.len())];
        let field = Field { at: self.at, text };
        self.at += text.len() + 1;
        Some(field)
    }
}

// A key or a value, as the part of the line that spells it.
pub(crate) fn parse_bytes(field: Field) -> Option<Span>
    ensures { result ≡ bytes (read field.entry) }
{
    Some(Span {
        at: field.at,
        len: hex_length(field.text)?,
    })
}
