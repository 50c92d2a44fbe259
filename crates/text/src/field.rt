// The fields of a line, taken one by one.
ghost use Rattle.std.specs.Prelude.{◌≡◌, ◌<◌, length, Some, IfSome};
ghost use Rattle.std.specs.Iterator.{at_most};
ghost use Rattle.std.specs.Option.{option_map};
ghost use Rattle.text.specs.Fields.{numeric, parted, cut_or, word as word_of, number as number_of, number_or, last, one_ended, pair_ended};
ghost use Rattle.text.specs.Seen.{left, size, name_of, value_of, line_of, Took, TookField};

use crate::cut::cut;
use crate::line::Line;
use crate::numeral::read_numeral;

// A field as parts of the text, with its line; a value that begins with a digit or a minus is a number part.
// Kept two variants of the same parts: the project wants a word and a number part told apart by the type.
#[derive(Clone, Copy)]
pub enum Field<'a> {
    Word {
        name: &'a [u8],
        value: &'a [u8],
        line: u32,
    },
    Number {
        name: &'a [u8],
        value: &'a [u8],
        line: u32,
    },
}

impl<'a> Field<'a> {
    // What stands before the `=`.
    pub fn name(self) -> &'a [u8]
        ensures { result.now ≡ name_of self.entry }
    {
        match self {
            Field::Word { name, .. } | Field::Number { name, .. } => name,
        }
    }

    // What stands after the `=`.
    pub fn value(self) -> &'a [u8]
        ensures { result.now ≡ value_of self.entry }
    {
        match self {
            Field::Word { value, .. } | Field::Number { value, .. } => value,
        }
    }

    // The line that it stands on.
    pub fn line(self) -> u32
        ensures { result ≡ line_of self.entry }
    {
        match self {
            Field::Word { line, .. } | Field::Number { line, .. } => line,
        }
    }
}

// Whether a value is a number part.
fn is_numeric(value: &[u8]) -> bool
    ensures { result ≡ numeric value.now }
{
    matches!(value, [b'-' | b'0'..=b'9', ..])
}

// The text up to the first space, and what follows the space, if there is one.
fn part(text: &[u8]) -> (&[u8], Option<&[u8]>)
    ensures parts { (result.0.now, option_map (λ x. x.now) result.1) ≡ cut_or text.now (parted 32 text.now) }
    ensures shorter { IfSome result.1 (λ x. length x.now < length text.now) }
{
    cut(text, b' ').map_or((text, None), |(part, after)| (part, Some(after)))
}

// What is left of a line: nothing, or fields with one space between.
#[derive(Clone, Copy)]
pub struct Fields<'a> {
    rest: Option<&'a [u8]>,
    line: u32,
}

// A part that is no field is not taken: it ends the fields, and the line is not at its end.
impl<'a> Iterator for Fields<'a> {
    type Item = Field<'a>;

    ghost next_gives = { TookField };

    ghost remaining = { λ s. at_most (size (left s)) };

    fn next(&mut self) -> Option<Field<'a>> {
        let (part, after) = part(self.rest?);
        let (name, value) = cut(part, b'=')?;
        self.rest = after;
        let line = self.line;
        if is_numeric(value) {
            Some(Field::Number { name, value, line })
        } else {
            Some(Field::Word { name, value, line })
        }
    }
}

impl<'a> Fields<'a> {
    // All the fields of a line.
    pub fn of(line: Line<'a>) -> Fields<'a>
        ensures rest { left result ≡ Some line.entry.text.now }
        ensures line { result.line ≡ line.entry.number }
    {
        Fields {
            rest: Some(line.text),
            line: line.number,
        }
    }

    // The value of the next field, where it has this name. The field is taken all the same.
    pub fn word(&mut self, name: &[u8]) -> Option<&'a [u8]>
        ensures { Took (word_of name.now) self.old (option_map (λ x. x.now) result) self.new }
    {
        let field = self.next()?;
        (field.name() == name).then_some(field.value())
    }

    // The number that the next field, which has this name, writes.
    pub fn number(&mut self, name: &[u8]) -> Option<i32>
        ensures { Took (number_of name.now) self.old result self.new }
    {
        read_numeral(self.word(name)?)
    }

    // The same, or none where the field has the other word for its value.
    pub fn number_or(&mut self, name: &[u8], other: &[u8]) -> Option<Option<i32>>
        ensures { Took (number_or name.now other.now) self.old result self.new }
    {
        let value = self.word(name)?;
        if value == other {
            return Some(None);
        }
        read_numeral(value).map(Some)
    }

    // Some exactly when nothing is left. Kept: an Option, since it stands in a row of readings joined by `?`.
    pub fn end(self) -> Option<()>
        ensures { result ≡ last tt (left self.entry) }
    {
        self.rest.is_none().then_some(())
    }

    // The number of the one field that is left.
    pub fn one_number(mut self, name: &[u8]) -> Option<i32>
        ensures { result ≡ one_ended name.now (left self.entry) }
    {
        let number = self.number(name)?;
        self.end()?;
        Some(number)
    }

    // The numbers of the two fields that are left.
    pub fn two_numbers(mut self, first: &[u8], second: &[u8]) -> Option<(i32, i32)>
        ensures { result ≡ pair_ended first.now second.now (left self.entry) }
    {
        Some((self.number(first)?, self.one_number(second)?))
    }
}
