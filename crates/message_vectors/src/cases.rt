// What a case asks of the message. A question answers whether all is as expected, and prints what is not.
ghost use Rattle.std.specs.Prelude.{◌+◌, ◌≤◌, ◌<◌, length};

use crate::tell;
use crate::tell::{agree, item};
use figures::text::lay;
use message::Fields;
pub use message_fields::no_fields;
use script::words::is_text;
use show::text::say;
use std::io::Stdout;

// How long a message is without persistence, and with its addresses.
pub const HEAD: usize = 29;

pub const FULL: usize = 125;

// Where its persist byte stands.
pub const PERSIST_AT: usize = 2;

// How long the lent memory is.
pub const BLOCK: usize = 200;

// The numbers of a message's fields, in the order of the message, but for the version.
pub const NUMBERS: usize = 18;

// What stands in memory before a message is written to it: no vector has this byte where it would be missed.
const UNTOUCHED: u8 = 165;

pub fn untouched() -> [u8; BLOCK] {
    [UNTOUCHED; BLOCK]
}

// A block with bytes at a place, and untouched else.
pub fn block_with(bytes: &[u8], at: usize) -> [u8; BLOCK]
    requires { at + length bytes.now ≤ 200 }
{
    let mut block = untouched();
    lay(&mut block, at, bytes);
    block
}

// The first n bytes, or all where there are fewer.
pub fn head(bytes: &[u8], n: usize) -> &[u8]
    ensures { length result.now ≤ n }
{
    &bytes[..n.min(bytes.len())]
}

// The bytes from a place on.
pub fn tail(bytes: &[u8], at: usize) -> &[u8]
    requires { at ≤ length bytes.now }
{
    &bytes[at..]
}

// A block with another byte at a place.
pub fn with_byte(block: &[u8; BLOCK], at: usize, byte: u8) -> [u8; BLOCK]
    requires { at < 200 }
{
    let mut next = *block;
    next[at] = byte;
    next
}

// The fields of a good message.
pub fn fields_in(good: &[u8; BLOCK]) -> Fields {
    message::read(head(good, FULL)).unwrap_or(no_fields())
}

// How long the message of the fields is to be.
pub fn length_due(fields: Fields) -> usize
    ensures { (0 < result) × (result ≤ 125) }
{
    if fields.persist == 0 { HEAD } else { FULL }
}

fn six(n: [u64; NUMBERS], from: usize) -> [u64; 6]
    requires { from ≤ 12 }
{
    [
        n[from],
        n[from + 1],
        n[from + 2],
        n[from + 3],
        n[from + 4],
        n[from + 5],
    ]
}

pub fn fields_of(n: [u64; NUMBERS]) -> Fields {
    Fields {
        strategy: (n[0] % 256) as u8,
        persist: (n[1] % 256) as u8,
        threshold: n[2],
        page: n[3],
        page_end: (n[4] % 65536) as u16,
        eoa: n[5],
        small: six(n, 6),
        large: six(n, 12),
    }
}

fn same_heads(stdout: Stdout, a: Fields, b: Fields) -> bool {
    agree(
        stdout,
        tell::STRATEGY,
        u64::from(a.strategy),
        u64::from(b.strategy),
    ) && agree(
        stdout,
        tell::PERSIST,
        u64::from(a.persist),
        u64::from(b.persist),
    ) && agree(stdout, tell::THRESHOLD, a.threshold, b.threshold)
        && agree(stdout, tell::PAGE, a.page, b.page)
        && agree(
            stdout,
            tell::PAGE_END,
            u64::from(a.page_end),
            u64::from(b.page_end),
        )
        && agree(stdout, tell::EOA, a.eoa, b.eoa)
}

fn same_fields(stdout: Stdout, a: Fields, b: Fields) -> bool {
    if same_heads(stdout, a, b) && a == b {
        return true;
    }
    say(stdout, b"found other fields\n");
    false
}

// Whether read answers this number and these fields for the bytes; those of a refused message are all 0.
fn answers(stdout: Stdout, bytes: &[u8], number: u64, fields: Fields) -> bool {
    let found = message::read(bytes);
    agree(stdout, tell::READ, number, message::number_of(found))
        && same_fields(stdout, fields, found.unwrap_or(no_fields()))
}

// Whether the bytes are read so: the answer's number, the fields, and how many bytes follow.
pub fn reads(stdout: Stdout, bytes: &[u8], number: u64, fields: Fields, follows: usize) -> bool {
    let rest = message::rest(bytes);
    agree(stdout, tell::FOLLOW, follows as u64, rest.len() as u64)
        && answers(stdout, bytes, number, fields)
}

// Whether a block has the bytes of another.
pub fn same_block(stdout: Stdout, expected: &[u8; BLOCK], found: &[u8; BLOCK]) -> bool {
    if is_text(found, expected) {
        return true;
    }
    say(stdout, b"found other bytes in the block\n");
    false
}

// Whether the fields are written so into n bytes of a block: the answer's number, and every byte of the block afterwards.
pub fn writes(stdout: Stdout, fields: Fields, n: usize, number: u64, expected: &[u8; BLOCK]) -> bool
    requires { n ≤ 200 }
{
    let mut block = untouched();
    let answer = message::write(fields, &mut block[..n]);
    agree(stdout, tell::WRITE, number, message::number_of(answer))
        && same_block(stdout, expected, &block)
}

// What a claim says of a read message.
pub fn say_read(stdout: Stdout, number: u64, follows: usize) {
    item(stdout, tell::READ, number);
    item(stdout, tell::FOLLOW, follows as u64);
}
