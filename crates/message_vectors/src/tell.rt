// What the program prints beside the verdicts of `show`: numbers with their labels.
use show::claim::{Tally, say_verdict};
use show::text::{say, say_number};
use std::io::Stdout;

pub const READ: &[u8] = b"read ";

pub const FOLLOW: &[u8] = b"bytes that follow ";

pub const WRITE: &[u8] = b"write ";

pub const STRATEGY: &[u8] = b"strategy ";

pub const PERSIST: &[u8] = b"persist ";

pub const THRESHOLD: &[u8] = b"threshold ";

pub const PAGE: &[u8] = b"page size ";

pub const PAGE_END: &[u8] = b"page-end threshold ";

pub const EOA: &[u8] = b"EOA ";

pub const ADDRESS: &[u8] = b"the last small address ";

pub const BYTES: &[u8] = b"bytes ";

pub const LENGTH: &[u8] = b"length ";

pub const PART: &[u8] = b"a block of 200 bytes, its part from ";

pub const INTO: &[u8] = b"written into such a block from ";

pub const INTO_NONE: &[u8] = b"write into no bytes ";

pub const BYTE_0: &[u8] = b"byte 0, the version";

pub const BYTE_1: &[u8] = b"byte 1, the strategy";

pub const BYTE_2: &[u8] = b"byte 2, persist";

pub const FROM: &[u8] = b"legal from ";

pub const TO: &[u8] = b"to ";

pub const OTHERS: &[u8] = b"read of every other value ";

pub const VALUE: &[u8] = b"of the value ";

pub const VERSION: &[u8] = b"version ";

pub const BEHIND: &[u8] = b"the byte behind its head ";

pub const LENGTHS: &[u8] = b"lengths from ";

pub const START: &[u8] = b"what follows starts at ";

// A number behind its label.
pub fn labelled(stdout: Stdout, label: &[u8], n: u64) {
    say(stdout, label);
    say_number(stdout, n);
}

// One more number of a line.
pub fn item(stdout: Stdout, label: &[u8], n: u64) {
    say(stdout, b", ");
    labelled(stdout, label, n);
}

// Whether a number is this one; what was found is printed where it is not.
pub fn agree(stdout: Stdout, label: &[u8], expected: u64, found: u64) -> bool {
    if expected == found {
        return true;
    }
    labelled(stdout, label, expected);
    say(stdout, b" expected, found ");
    say_number(stdout, found);
    end(stdout);
    false
}

// The end of a line.
pub fn end(stdout: Stdout) {
    say(stdout, b"\n");
}

// How a claim begins that a label names.
pub fn begin(stdout: Stdout, held: bool, label: &[u8], n: u64) {
    say_verdict(stdout, held);
    labelled(stdout, label, n);
}

// The end of a claim, which is counted.
pub fn finish(stdout: Stdout, t: Tally, held: bool) -> Tally {
    end(stdout);
    t.count(held)
}
