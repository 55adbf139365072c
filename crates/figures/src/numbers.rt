// The number that a word says, in decimal digits.
ghost use Rattle.std.specs.Prelude.{◌≡◌, true, ◌-◌, ◌≤◌};
ghost use Rattle.script.specs.Line.{every};
ghost use Rattle.figures.specs.Decimal.{digitb, value_from, longer_by, fitting, number_said};

const ZERO: u8 = b'0';

const BASE: u64 = 10;

// Why a word says no number of 64 bits: it is too large, or no number.
#[derive(Clone, Copy, Debug, PartialEq, Eq)]
pub enum NumberError {
    TooLarge,
    NoNumber,
}

pub fn is_digit(byte: u8) -> bool
    ensures { result ≡ digitb byte }
{
    byte.is_ascii_digit()
}

// Whether every byte is a digit.
pub fn are_digits(word: &[u8]) -> bool
    ensures { result ≡ every digitb word.now }
{
    word.iter().all(|byte| is_digit(*byte))
}

// A value with one more digit, if it is not too large.
fn with_digit(value: u64, digit: u64) -> Option<u64>
    requires { digit ≤ 9 }
    ensures { result ≡ longer_by value digit }
{
    value.checked_mul(BASE)?.checked_add(digit)
}

fn digit_of(byte: u8) -> u64
    requires { digitb byte ≡ true }
    ensures { (result ≡ byte - 48) × (result ≤ 9) }
{
    u64::from(byte - ZERO)
}

// The value of digits.
fn value_of(word: &[u8]) -> Result<u64, NumberError>
    requires { every digitb word.now ≡ true }
    ensures { result ≡ fitting (value_from 0 word.now) }
{
    let mut value: u64 = 0;
    for byte in word {
        let Some(next) = with_digit(value, digit_of(*byte)) else {
            return Err(NumberError::TooLarge);
        };
        value = next;
    }
    Ok(value)
}

// The number that a word says.
pub fn number_of(word: &[u8]) -> Result<u64, NumberError>
    ensures { result ≡ number_said word.now }
{
    if word.is_empty() || !are_digits(word) {
        return Err(NumberError::NoNumber);
    }
    value_of(word)
}
