// A header block of 200 bytes with a message in its middle: the reader is called on the part that starts there, and the writer too.
ghost use Rattle.std.specs.Prelude.{◌≤◌};

use crate::cases::{
    BLOCK, block_with, fields_in, head, length_due, no_fields, reads, same_block, say_read, tail,
    untouched,
};
use crate::tell;
use crate::tell::{agree, begin, finish, item};
use message::Fields;
use show::claim::Tally;
use std::io::Stdout;

// Where the message starts in the block.
const START: usize = 17;

// The part of the block from a place on is read. The block has a message with this persist byte.
fn read_from(
    stdout: Stdout,
    t: Tally,
    persist: u8,
    block: &[u8; BLOCK],
    at: usize,
    number: u64,
    fields: Fields,
    follows: usize,
) -> Tally
    requires { at ≤ 200 }
{
    let held = reads(stdout, tail(block, at), number, fields, follows);
    begin(stdout, held, tell::PERSIST, u64::from(persist));
    item(stdout, tell::PART, at as u64);
    say_read(stdout, number, follows);
    finish(stdout, t, held)
}

// The message is written into the middle of a block: every other byte of the block stays.
fn write_into(stdout: Stdout, t: Tally, expected: &[u8; BLOCK], fields: Fields) -> Tally {
    let mut block = untouched();
    let answer = message::write(fields, &mut block[START..]);
    let held = agree(stdout, tell::WRITE, 0, message::number_of(answer))
        && same_block(stdout, expected, &block);
    begin(stdout, held, tell::PERSIST, u64::from(fields.persist));
    item(stdout, tell::INTO, START as u64);
    item(stdout, tell::WRITE, 0);
    finish(stdout, t, held)
}

// The part that starts at the message, parts that start beside it, one that is too short and one of no byte; then the writer.
pub fn middle(stdout: Stdout, t: Tally, good: &[u8; BLOCK]) -> Tally {
    let fields = fields_in(good);
    let persist = fields.persist;
    let none = no_fields();
    let length = length_due(fields);
    let block = block_with(head(good, length), START);
    let t = read_from(
        stdout,
        t,
        persist,
        &block,
        START,
        0,
        fields,
        BLOCK - START - length,
    );
    let t = read_from(stdout, t, persist, &block, 16, 11, none, 184);
    let t = read_from(stdout, t, persist, &block, 18, 11, none, 182);
    let t = read_from(stdout, t, persist, &block, 172, 10, none, 28);
    let t = read_from(stdout, t, persist, &block, 200, 10, none, 0);
    write_into(stdout, t, &block, fields)
}
