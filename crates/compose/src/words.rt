//! The words of a line, parted by blanks. A comment is no part of its line.
ghost use Rattle.std.specs.Prelude.{◌≡◌, ◌<◌, ◌++◌, true, false, length, slice_index, ◌↔◌, All, IsTrue, IsOk, IfErr};
ghost use Rattle.std.specs.Fn.{FnReturnsAt};
ghost use Rattle.std.specs.Iterator.{at_most};
ghost use Rattle.compose.specs.Blank.{IsBlank};

use crate::number::parse_number;
use crate::unreadable::{Expected, Unreadable};

/// What is left of a line, which has this number in the text. At first it is empty, or begins with a word.
#[derive(Drop)]
pub(crate) struct Words<'a> {
    line: usize,
    rest: &'a [u8],
}

fn is_blank(byte: &u8) -> bool
    ensures { IsTrue result ↔ IsBlank byte.now }
{
    matches!(byte, b' ' | b'\t' | b'\r')
}

// The bytes before the first that passes, and the others.
fn split_before<P: Fn(&u8) -> bool>(text: &[u8], passes: P) -> (&[u8], &[u8])
    requires { P.IsAlwaysCallable passes }
    ensures whole { text.now ≡ result.0.now ++ result.1.now }
    ensures before { All (λ byte. FnReturnsAt P.Fn passes byte false) result.0.now }
    ensures from { let others = result.1.now in
        0 < length others → FnReturnsAt P.Fn passes (slice_index others 0) true }
{
    let place = text.iter().position(passes).unwrap_or(text.len());
    text.split_at(place)
}

impl<'a> Words<'a> {
    pub(crate) fn new(line: usize, text: &'a [u8]) -> Words<'a>
        ensures line { result.line ≡ line }
        ensures begins { let rest = result.rest.now in 0 < length rest → ¬ IsBlank (slice_index rest 0) }
    {
        let (_blanks, text) = split_before(text, |byte| !is_blank(byte));
        let (rest, _comment) = split_before(text, |byte| *byte == b'#');
        Words { line, rest }
    }

    pub(crate) fn is_empty(&self) -> bool
        ensures { IsTrue result ↔ All IsBlank self.now.rest.now }
    {
        self.rest.iter().all(is_blank)
    }

    /// The line is not readable, since it lacks this.
    pub(crate) fn lacks(&self, expected: Expected) -> Unreadable
        ensures { (result.line ≡ self.now.line) × (result.expected ≡ expected) }
    {
        Unreadable {
            line: self.line,
            expected,
        }
    }

    fn expect_that(&self, met: bool, expected: Expected) -> Result<(), Unreadable>
        ensures met { IsOk result ↔ IsTrue met }
        ensures lacks { IfErr result (λ e. (e.line ≡ self.now.line) × (e.expected ≡ expected)) }
    {
        if met {
            Ok(())
        } else {
            Err(self.lacks(expected))
        }
    }

    fn expect_number(&mut self) -> Result<u32, Unreadable> {
        self.next()
            .and_then(parse_number)
            .ok_or(self.lacks(Expected::Number))
    }

    pub(crate) fn expect_word(&mut self, word: &'static str) -> Result<(), Unreadable> {
        let met = self.next() == Some(word.as_bytes());
        self.expect_that(met, Expected::Word(word))
    }

    /// A word and the number behind it, as `fan-out 2`.
    pub(crate) fn expect_setting(&mut self, name: &'static str) -> Result<u32, Unreadable> {
        self.expect_word(name)?;
        self.expect_number()
    }

    /// What one of several records begins with, as `level 1`.
    pub(crate) fn expect_record(
        &mut self,
        name: &'static str,
        number: u32,
    ) -> Result<(), Unreadable> {
        let met = self.next() == Some(name.as_bytes())
            && self.next().and_then(parse_number) == Some(number);
        self.expect_that(met, Expected::Record { name, number })
    }

    pub(crate) fn expect_end(&self) -> Result<(), Unreadable>
        ensures ends { IsOk result ↔ All IsBlank self.now.rest.now }
        ensures lacks { IfErr result (λ e. (e.line ≡ self.now.line) × (e.expected ≡ Expected.EndOfLine)) }
    {
        self.expect_that(self.is_empty(), Expected::EndOfLine)
    }
}

impl<'a> Iterator for Words<'a> {
    type Item = &'a [u8];

    ghost remaining = { λ words. at_most (length words.rest.now) };

    fn next(&mut self) -> Option<&'a [u8]> {
        let (_blanks, rest) = split_before(self.rest, |byte| !is_blank(byte));
        let (word, rest) = split_before(rest, is_blank);
        self.rest = rest;
        if word.is_empty() { None } else { Some(word) }
    }
}
