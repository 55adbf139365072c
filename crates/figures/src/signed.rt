// Signed numbers in text: a minus sign stands before the digits of a negative one.
ghost use Rattle.std.specs.Prelude.{◌≡◌, nat_abs};
ghost use Rattle.figures.specs.Signed.{positive, negative, signed_said};

use crate::numbers::{NumberError, number_of};

const MINUS: u8 = b'-';

// What a word says that has no sign.
fn above(n: u64) -> Result<i64, NumberError>
    ensures { result ≡ positive (Ok n) }
{
    i64::try_from(n).map_err(|_| NumberError::TooLarge)
}

// What a word says that has this behind its minus sign.
fn below(n: u64) -> Result<i64, NumberError>
    ensures { result ≡ negative (Ok n) }
{
    0i64.checked_sub_unsigned(n).ok_or(NumberError::TooLarge)
}

// The signed number that a word says.
pub fn signed_of(word: &[u8]) -> Result<i64, NumberError>
    ensures { result ≡ signed_said word.now }
{
    match word {
        [MINUS, digits @ ..] => below(number_of(digits)?),
        _ => above(number_of(word)?),
    }
}

// How far a number is from 0.
pub fn distance(n: i64) -> u64
    ensures { result ≡ nat_abs n }
{
    n.unsigned_abs()
}
