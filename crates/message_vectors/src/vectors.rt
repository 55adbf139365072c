// The vectors: a message is read to the vector's fields and written back to the same bytes, one with its addresses and one that ends before
// them, as HDF5 writes it without persistence.
ghost use Rattle.std.specs.Prelude.{◌≤◌, length};

use crate::cases::{
    BLOCK, FULL, HEAD, NUMBERS, block_with, fields_of, head, reads, say_read, untouched, writes,
};
use crate::lines::{line, next_line};
use crate::tell;
use crate::tell::{finish, item};
use figures::bytes::{is_hex, unhex};
use figures::numbers::number_of;
use message::Fields;
use script::words::{count_words, next_word};
use show::claim::{Tally, say_verdict};
use show::text::say;
use std::io::Stdout;

// The bytes that a line says, laid to the front of a block, and how many they are: none where it says too many, or no bytes.
pub fn bytes_said(text: &[u8], out: &mut [u8; BLOCK]) -> usize {
    let (hex, _) = next_word(text);
    let n = hex.len() / 2;
    if BLOCK < n || !is_hex(hex) {
        return 0;
    }
    unhex(hex, out);
    n
}

// What an address is to be that is not there: all ones.
const ABSENT: u64 = 18446744073709551615;

// The number that a word says. Where a line has '-' and then no words, it has no addresses.
fn value(word: &[u8]) -> u64 {
    number_of(word).unwrap_or(ABSENT)
}

// The numbers of a line.
fn numbers(text: &[u8]) -> [u64; NUMBERS] {
    let mut found = [0u64; NUMBERS];
    let mut rest = text;
    for number in &mut found {
        let (word, behind) = next_word(rest);
        *number = value(word);
        rest = behind;
    }
    found
}

// How long the message is whose fields a line says: whether its addresses are there, the line says by itself.
fn length_said(text: &[u8]) -> usize
    ensures { result ≤ 125 }
{
    if count_words(text) == NUMBERS {
        FULL
    } else {
        HEAD
    }
}

// How many of n bytes stand behind a message of this length.
fn behind(n: usize, length: usize) -> usize {
    n.saturating_sub(length)
}

// Whether a message of this length, in front of n bytes, is read and written back.
fn whole(stdout: Stdout, bytes: &[u8; BLOCK], n: usize, length: usize, fields: Fields) -> bool
    requires { length ≤ 200 }
{
    let same = block_with(head(bytes, length), 0);
    reads(stdout, head(bytes, n), 0, fields, behind(n, length))
        && writes(stdout, fields, BLOCK, 0, &same)
}

// A vector with its name, its bytes in a block, and the line of its fields.
fn claim(
    stdout: Stdout,
    t: Tally,
    name: &[u8],
    bytes: &[u8; BLOCK],
    n: usize,
    said: &[u8],
) -> Tally {
    let length = length_said(said);
    let held = whole(stdout, bytes, n, length, fields_of(numbers(said)));
    say_vector(stdout, held, name, n);
    say_read(stdout, 0, behind(n, length));
    item(stdout, tell::WRITE, 0);
    finish(stdout, t, held)
}

// How a vector's claim begins.
fn say_vector(stdout: Stdout, held: bool, name: &[u8], n: usize) {
    say_verdict(stdout, held);
    say(stdout, name);
    item(stdout, tell::BYTES, n as u64);
}

// The vector whose name stands at a place of the file, with its bytes and its fields in the next two lines.
pub fn vector(stdout: Stdout, t: Tally, file: &[u8], at: usize) -> Tally
    requires { at ≤ length file.now }
{
    let hex_at = next_line(file, at);
    let fields_at = next_line(file, hex_at);
    let mut bytes = untouched();
    let n = bytes_said(line(file, hex_at), &mut bytes);
    claim(stdout, t, line(file, at), &bytes, n, line(file, fields_at))
}
