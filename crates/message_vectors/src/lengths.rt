// A good message, and what stands behind it, lent in each length from 0 to 130: with fewer bytes than the message has read and write answer 10,
// all of the part follows and no byte is written; with more the part behind the message follows, and no byte of it is written.
ghost use Rattle.std.specs.Prelude.{◌≤◌};

use crate::cases::{
    BLOCK, HEAD, block_with, fields_in, head, length_due, no_fields, reads, untouched, writes,
};
use crate::tell;
use crate::tell::{begin, end, finish, item, labelled};
use message::Fields;
use show::claim::Tally;
use std::io::Stdout;

const MOST: usize = 130;

// Whether n bytes of the block are read so, and the fields written into as many. A length that is not is printed.
fn is_due(
    stdout: Stdout,
    block: &[u8; BLOCK],
    n: usize,
    number: u64,
    found: Fields,
    follows: usize,
    fields: Fields,
    expected: &[u8; BLOCK],
) -> bool
    requires { n ≤ 200 }
{
    if reads(stdout, head(block, n), number, found, follows)
        && writes(stdout, fields, n, number, expected)
    {
        return true;
    }
    labelled(stdout, tell::LENGTH, n as u64);
    end(stdout);
    false
}

// Whether every length below that of the message is too short.
fn are_short(stdout: Stdout, block: &[u8; BLOCK], length: usize, fields: Fields) -> bool
    requires { length ≤ 125 }
{
    let none = no_fields();
    let blank = untouched();
    (0..length).all(|n| is_due(stdout, block, n, 10, none, n, fields, &blank))
}

// Whether every length from that of the message on is enough.
fn are_enough(stdout: Stdout, block: &[u8; BLOCK], length: usize, fields: Fields) -> bool
    requires { length ≤ 125 }
{
    let written = block_with(head(block, length), 0);
    (length..=MOST).all(|n| is_due(stdout, block, n, 0, fields, n - length, fields, &written))
}

// What a claim says: which message, the byte behind its head, the lengths, the answer and where what follows starts.
fn say_lengths(
    stdout: Stdout,
    held: bool,
    persist: u8,
    behind: u8,
    first: usize,
    last: usize,
    number: u64,
    start: usize,
) {
    begin(stdout, held, tell::PERSIST, u64::from(persist));
    item(stdout, tell::BEHIND, u64::from(behind));
    item(stdout, tell::LENGTHS, first as u64);
    item(stdout, tell::TO, last as u64);
    item(stdout, tell::READ, number);
    item(stdout, tell::START, start as u64);
    item(stdout, tell::WRITE, number);
}

// The lengths of a block that starts with a good message.
pub fn lengths(stdout: Stdout, t: Tally, block: &[u8; BLOCK]) -> Tally {
    let fields = fields_in(block);
    let length = length_due(fields);
    let short = are_short(stdout, block, length, fields);
    say_lengths(
        stdout,
        short,
        fields.persist,
        block[HEAD],
        0,
        length - 1,
        10,
        0,
    );
    let t = finish(stdout, t, short);
    let enough = are_enough(stdout, block, length, fields);
    say_lengths(
        stdout,
        enough,
        fields.persist,
        block[HEAD],
        length,
        MOST,
        0,
        length,
    );
    finish(stdout, t, enough)
}
