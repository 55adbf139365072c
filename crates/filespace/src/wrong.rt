// What is wrong with a line, as it is said.
use figures::numbers::NumberError;
use std::fmt;

#[derive(Clone, Copy)]
pub enum Wrong {
    TooLong,
    NoCall,
    Count,
    Number(NumberError),
    TooMany,
    NotHex,
}

impl From<NumberError> for Wrong {
    fn from(why: NumberError) -> Wrong {
        Wrong::Number(why)
    }
}

impl fmt::Display for Wrong {
    fn fmt<W: fmt::Write>(&self, f: &mut fmt::Formatter<W>) -> fmt::Result {
        f.write_str(match self {
            Wrong::TooLong => "too long",
            Wrong::NoCall => "no call",
            Wrong::Count => "wrong count of words",
            Wrong::Number(NumberError::TooLarge) => "number too large",
            Wrong::Number(NumberError::NoNumber) => "not a number",
            Wrong::TooMany => "too many",
            Wrong::NotHex => "not hex",
        })
    }
}
