//! Numbers: groups of seven bits, lowest first, the top bit set in all but the last.
ghost use Rattle.std.specs.Prelude.{◌≡◌, ◌^◌, drop};
ghost use Rattle.turn_file.specs.Number.{group_of, number_at};
ghost use Rattle.turn_file.specs.Spelling.{OneSpelling, Spelled};

use crate::fault::NumberFault;

// What a byte is in a number: the last of its groups, or one that others follow.
#[derive(Clone, Copy)]
enum Group {
    Last,
    More,
}

// What a byte is, behind which at most `left` groups may come, in a number that begins at `at`.
fn group_of(at: usize, byte: u8, left: usize) -> Result<Group, NumberFault>
    ensures { result ≡ group_of at byte left }
{
    if byte == 0 && left < 4 {
        Err(NumberFault::Padded { place: at })
    } else if byte >= 16 && left == 0 {
        Err(NumberFault::TooLarge { place: at })
    } else if byte < 128 {
        Ok(Group::Last)
    } else {
        Ok(Group::More)
    }
}

// The bytes from a place on, none where the file has ended.
fn bytes_from(file: &[u8], at: usize) -> &[u8]
    ensures { result.now ≡ drop at file.now }
{
    file.get(at..).unwrap_or(&[])
}

/// The number whose first byte is at `at`, with the place after it.
pub fn read_number(file: &[u8], at: usize) -> Result<(u32, usize), NumberFault>
    ensures reads { result ≡ number_at file.now at }
    ensures spelled { Spelled (2 ^ 32) file.now at result }
{
    let mut value = 0;
    let mut weight = 1;
    // A number has at most five groups. With a fixed count of turns the loop can be unrolled.
    for index in 0..5 {
        let &[byte, ..] = bytes_from(file, at + index) else {
            return Err(NumberFault::Ends { place: at });
        };
        match group_of(at, byte, 4 - index)? {
            Group::Last => return Ok((value + u32::from(byte) * weight, at + index + 1)),
            Group::More => {
                value += u32::from(byte - 128) * weight;
                weight *= 128;
            }
        }
    }
    // Not reached: nothing may come behind a fifth group.
    Err(NumberFault::TooLarge { place: at })
}

/// Every value up to 4,294,967,295 has exactly one accepted spelling, and what is accepted at a place is that spelling.
pub fn one_spelling_for_each_number()
    ensures { OneSpelling (2 ^ 32) }
{}
