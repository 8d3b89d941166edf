//! Bytes in hexadecimal, two digits to a byte, with blanks where one likes.
//! A star and a number after a byte repeat it: `0a 00*3` is `0a 00 00 00`.
ghost use Rattle.std.specs.Prelude.{◌≡◌, ◌<◌, ◌↔◌, IfOk, IsOk};
ghost use Rattle.std.specs.Char.{digit_value};

use crate::repeated::split_times;
use anyhow::{Context, bail};
use std::alloc::Global;

// That a digit is small follows from the other clauses; with it a byte of two digits is seen to fit.
fn digit(c: u8) -> anyhow::Result<u8>
    ensures found { IsOk result ↔ (digit_value c < 16) }
    ensures value { IfOk result (λ d. d ≡ digit_value c) }
    ensures small { IfOk result (λ d. d < 16) }
{
    let digit = char::from(c).to_digit(16).context("no hexadecimal digit")?;
    Ok(digit as u8)
}

fn byte_of(pair: &[u8]) -> anyhow::Result<u8> {
    let [high, low] = *pair else {
        bail!("a byte of one digit");
    };
    Ok(digit(high)? * 16 + digit(low)?)
}

// Adds the bytes of a word, the last one as often as the number after the star says.
fn push_word(file: &mut Vec<u8>, word: &str) -> anyhow::Result<()> {
    let (digits, times) = split_times(word)?;
    for pair in digits.as_bytes().chunks(2) {
        file.push(byte_of(pair)?)?;
    }
    let last = file.pop().context("no byte to repeat")?;
    file.resize(file.len().saturating_add(times), last)?;
    Ok(())
}

pub(crate) fn parse_bytes(heap: Global, line: &str) -> anyhow::Result<Vec<u8>> {
    let mut file = Vec::new(heap);
    for word in line.split_whitespace() {
        push_word(&mut file, word)?;
    }
    Ok(file)
}
