//! Decimal numbers of 32 bits.
ghost use Rattle.std.specs.Prelude.{◌^◌, ◌<◌, SomeIff};
ghost use Rattle.std.specs.Str.Parse.{AllDigits, digits_value};

/// The number that a word is, if it has no byte but digits and 32 bits hold it.
pub(crate) fn parse_number(word: &[u8]) -> Option<u32>
    ensures { let number = digits_value 10 word.now in
        SomeIff result (AllDigits 10 word.now × (number < 2 ^ 32)) number }
{
    word.iter().try_fold(0u32, |number, byte| {
        let digit = char::from(*byte).to_digit(10)?;
        number.checked_mul(10)?.checked_add(digit)
    })
}
