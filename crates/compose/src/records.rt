//! The lines of a text, each a record of the turn file or a part of its schedule.
ghost use Rattle.std.specs.Prelude.{◌≡◌, min};

use crate::failure::Failure;
use crate::number::parse_number;
use crate::unreadable::{Expected, Unreadable};
use crate::words::Words;
use turn_file::plan::{Algorithm, Level, Script};

fn read_algorithm(line: &mut Words<'_>) -> Result<Algorithm, Unreadable> {
    match line.next() {
        Some(b"ticket") => Ok(Algorithm::Ticket),
        Some(b"mcs") => Ok(Algorithm::Mcs),
        _ => Err(line.lacks(Expected::Algorithm)),
    }
}

/// A record that has a line with a number of its own.
pub(crate) trait Numbered: Sized {
    fn read(line: Words<'_>, number: u32) -> Result<Self, Unreadable>;
}

// Levels count from 1. The first is the top level, which has no handoff limit.
impl Numbered for Level {
    fn read(mut line: Words<'_>, number: u32) -> Result<Level, Unreadable> {
        line.expect_record("level", number)?;
        let algorithm = read_algorithm(&mut line)?;
        let fan_out = line.expect_setting("fan-out")?;
        let handoff_limit = if number == 1 {
            0
        } else {
            line.expect_setting("handoff-limit")?
        };
        line.expect_end()?;
        Ok(Level {
            algorithm,
            fan_out,
            handoff_limit,
        })
    }
}

// Workers count from 0.
impl Numbered for Script {
    fn read(mut line: Words<'_>, worker: u32) -> Result<Script, Unreadable> {
        line.expect_record("script", worker)?;
        let turns = line.expect_setting("turns")?;
        let rest = line.expect_setting("rest")?;
        let hold = line.expect_setting("hold")?;
        line.expect_end()?;
        Ok(Script { turns, rest, hold })
    }
}

// A byte holds every worker. A number that it does not hold is no worker, and nor is 255.
fn entry_of(number: u32) -> u8
    ensures { result ≡ min number 255 }
{
    number.min(255) as u8
}

/// Adds the entries of a line of the schedule.
pub(crate) fn read_entries(mut line: Words<'_>, entries: &mut Vec<u8>) -> Result<(), Failure> {
    line.expect_word("schedule")?;
    let lacks_number = line.lacks(Expected::Number);
    for word in line {
        let number = parse_number(word).ok_or(lacks_number)?;
        entries.push(entry_of(number))?;
    }
    Ok(())
}
