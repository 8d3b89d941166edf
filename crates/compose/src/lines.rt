//! The lines of a text that have words.
ghost use Rattle.std.specs.Prelude.{length};
ghost use Rattle.std.specs.Iterator.{at_most};

use crate::words::Words;

/// What is left of a text, and the number of the line that it begins with.
#[derive(Drop)]
pub(crate) struct Lines<'a> {
    rest: &'a [u8],
    number: usize,
}

impl<'a> Lines<'a> {
    pub(crate) fn new(text: &'a [u8]) -> Lines<'a> {
        Lines {
            rest: text,
            number: 1,
        }
    }

    /// The next line that has a word, or an empty line behind the last.
    pub(crate) fn next_or_empty(&mut self) -> Words<'a> {
        self.next().unwrap_or(Words::new(self.number, &[]))
    }
}

impl<'a> Iterator for Lines<'a> {
    type Item = Words<'a>;

    ghost remaining = { λ lines. at_most (length lines.rest.now) };

    // `split_inclusive` goes over the text as it was at the call; `self.rest` is kept at what is left behind the line.
    fn next(&mut self) -> Option<Words<'a>> {
        for line in self.rest.split_inclusive(|byte| *byte == b'\n') {
            let text = match line {
                [text @ .., b'\n'] => text,
                _ => line,
            };
            let words = Words::new(self.number, text);
            self.rest = &self.rest[line.len()..];
            self.number = self.number.saturating_add(1);
            if !words.is_empty() {
                return Some(words);
            }
        }
        None
    }
}
