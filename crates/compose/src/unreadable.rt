//! Why a text cannot be read.
ghost use Rattle.std.specs.Prelude.{Some};
ghost use Rattle.compose.specs.Failing.{expected_text, unreadable_text};

use std::fmt;

/// What the grammar of the text wants at some place.
#[derive(Clone, Copy, PartialEq, Eq, Debug)]
pub(crate) enum Expected {
    Word(&'static str),
    Record { name: &'static str, number: u32 },
    Algorithm,
    Number,
    EndOfLine,
}

/// The line that is not as it should be, by its number, and what it should have.
#[derive(Clone, Copy, PartialEq, Eq, Debug)]
pub(crate) struct Unreadable {
    pub(crate) line: usize,
    pub(crate) expected: Expected,
}

impl fmt::Display for Expected {
    ghost output = { λ e. Some (expected_text e) };

    fn fmt<W: fmt::Write>(&self, f: &mut fmt::Formatter<W>) -> fmt::Result {
        match self {
            Expected::Word(word) => f.write_str(word),
            Expected::Record { name, number } => write!(f, "{name} {number}"),
            Expected::Algorithm => f.write_str("ticket or mcs"),
            Expected::Number => write!(f, "a number up to {}", u32::MAX),
            Expected::EndOfLine => f.write_str("the end of the line"),
        }
    }
}

impl fmt::Display for Unreadable {
    ghost output = { λ u. Some (unreadable_text u) };

    fn fmt<W: fmt::Write>(&self, f: &mut fmt::Formatter<W>) -> fmt::Result {
        let Unreadable { line, expected } = self;
        write!(f, "line {line}: expected {expected}")
    }
}
