// A call in words, as a line of a program has it.
use call::Call;
use space::place::{METADATA, RAW};
use std::fmt;

#[derive(Clone, Copy)]
pub struct Spoken(pub Call);

// What document 01 calls the type of a request.
fn type_of(code: u64) -> &'static str {
    match code {
        METADATA => "metadata",
        RAW => "raw",
        _ => "unknown type",
    }
}

impl fmt::Display for Spoken {
    fn fmt<W: fmt::Write>(&self, f: &mut fmt::Formatter<W>) -> fmt::Result {
        match self.0 {
            Call::Allocate(code, size) => write!(f, "{} {size}", type_of(code)),
            Call::Release(address, size) => write!(f, "release {address} size {size}"),
            Call::Extend(address, size, by) => write!(f, "extend {address} size {size} by {by}"),
            Call::Shorten(address, size, by) => write!(f, "shorten {address} size {size} by {by}"),
        }
    }
}
