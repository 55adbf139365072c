// The benchmark's workload through the library. Standard input has five numbers: about how many entries the table is to have, for how many it
// has room, how many turns to make, the way, and the part of the table for those ways that have one; what is missing is 0. 7 of 8 requests are
// small. The ways:
//
//   0    a turn releases a live piece, allocates another one, shortens a third and extends that again
//   1    the same, and the calls take a summary
//   2    a turn draws the name of a live piece in the part, and notes it
//   3    the same, and the name is found
//   4    a turn releases a live piece in the part, and allocates another one
//
// The parts: 0 the front of the table, 1 its middle, 2 its end. bench/workload.h is the same workload in C, through a plain C version (bench/space.c)
// and over an area of bytes (bench/area.c), and must write the same.
#![tactic(auto)]

mod named;
mod with;

ghost use Rattle.std.specs.Prelude.{◌≡◌, ◌*◌, ◌<◌, ◌≤◌, length};
ghost use Rattle.pieces.specs.Words.{entry_words};

use named::Part;
use pieces::ENTRY_WORDS;
use space::Space;
use space::answers::{DONE, NO_ADDRESS, number_of};
use std::io::{Read, Stdin};

const PAGE: u64 = 4096;

const LIMIT: u64 = 4611686018427387904;

const MOST_ENTRIES: usize = 1024;

const MOST_WORDS: usize = MOST_ENTRIES * ENTRY_WORDS;

const LARGEST_SMALL: u64 = 1024;

const LARGEST_CHANGE: u64 = 64;

const FIRST_DRAW: u64 = 88172645463325252;

// The ways by their numbers.
#[derive(Clone, Copy)]
enum Way {
    Plain,
    WithSummary,
    NamesDrawn,
    NamesFound,
    CallsByName,
}

impl From<u64> for Way {
    fn from(number: u64) -> Way {
        match number {
            1 => Way::WithSummary,
            2 => Way::NamesDrawn,
            3 => Way::NamesFound,
            4 => Way::CallsByName,
            _ => Way::Plain,
        }
    }
}

// The space, the last number drawn, and what is kept of the answers: a checksum, how many calls were accepted, and the sum of the counts of
// entries.
#[derive(Clone, Copy)]
pub struct Run {
    pub space: Space,
    pub draw: u64,
    pub sum: u64,
    pub accepted: u64,
    pub entries: u64,
}

// A live piece: its entry, address and size.
#[derive(Clone, Copy)]
pub struct Live {
    pub entry: usize,
    pub address: u64,
    pub size: u64,
}

// The number drawn after another (xorshift).
pub fn drawn(x: u64) -> u64 {
    let a = x ^ (x << 13);
    let b = a ^ (a >> 7);
    b ^ (b << 17)
}

// A checksum with one number more.
pub fn summed(sum: u64, x: u64) -> u64 {
    drawn(sum.wrapping_add(x))
}

// A request's type: metadata or raw.
pub fn type_of(draw: u64) -> u64 {
    if draw & 8 == 0 {
        space::place::METADATA
    } else {
        space::place::RAW
    }
}

// A request's size: of 8 requests 7 are small, and one has one to four pages.
pub fn size_of(draw: u64) -> u64 {
    let bits = draw >> 8;
    if draw & 7 == 0 {
        return PAGE + bits % (3 * PAGE);
    }
    1 + bits % LARGEST_SMALL
}

// What a call answered, as one number for the checksum: refusals count down from the largest number.
fn answered(number: u64, given: u64) -> u64 {
    if number == DONE {
        return given;
    }
    u64::MAX - number
}

// What is kept behind a call that handed back this space with this number, and gave this where it was accepted.
pub fn noted(run: Run, space: Space, draw: u64, number: u64, given: u64) -> Run {
    let sum = summed(run.sum, answered(number, given));
    Run {
        space,
        draw,
        sum: summed(summed(sum, space.end), space.count),
        accepted: run.accepted.wrapping_add(u64::from(number == DONE)),
        entries: run.entries.wrapping_add(space.count),
    }
}

pub fn allocate(table: &mut [u64], run: Run) -> Run {
    let draw = drawn(run.draw);
    let space = run.space;
    let done = space.allocate(table, type_of(draw), size_of(draw));
    let next = done.space;
    let answer = done.answer;
    noted(
        run,
        next,
        draw,
        number_of(answer),
        answer.unwrap_or(NO_ADDRESS),
    )
}

// The first live piece from entry i on, of n.
fn live_from(table: &[u64], i: usize, n: usize) -> Option<Live>
    requires { n * entry_words ≤ length table.now }
{
    for entry in i..n {
        let piece = pieces::piece_at(table, entry);
        if !piece.status.is_free() {
            return Some(Live {
                entry,
                address: piece.address,
                size: piece.size,
            });
        }
    }
    None
}

// Any entry of n.
pub fn any_of(n: usize, draw: u64) -> usize
    requires { 0 < n }
    ensures { result < n }
{
    (draw >> 8) as usize % n
}

// The first live piece from entry i on, of n, or from the entry `first` on where there is none.
pub fn live_from_or(table: &[u64], i: usize, first: usize, n: usize) -> Option<Live>
    requires { n * entry_words ≤ length table.now }
{
    live_from(table, i, n).or_else(|| live_from(table, first, n))
}

// A live piece, found from any entry on, or from the first.
pub fn any_live(table: &[u64], space: Space, draw: u64) -> Option<Live> {
    let n = pieces::entries_within(space.count, table.len());
    if n == 0 {
        return None;
    }
    live_from_or(table, any_of(n, draw), 0, n)
}

// The piece at this address, of this size, is released.
pub fn release_named(table: &mut [u64], run: Run, draw: u64, address: u64, size: u64) -> Run {
    let space = run.space;
    let done = space.release(table, address, size);
    let next = done.space;
    let answer = done.answer;
    noted(run, next, draw, number_of(answer), 0)
}

fn release(table: &mut [u64], run: Run) -> Run {
    let draw = drawn(run.draw);
    let space = run.space;
    let Some(live) = any_live(table, space, draw) else {
        return run;
    };
    release_named(table, run, draw, live.address, live.size)
}

// By how many bytes a piece is shortened, and then extended again.
pub fn change_of(draw: u64) -> u64 {
    1 + (draw >> 32) % LARGEST_CHANGE
}

// The piece of `size` bytes without its last `by`, and then with them again.
fn there_and_back(table: &mut [u64], run: Run, draw: u64, address: u64, size: u64, by: u64) -> Run {
    let space = run.space;
    let done = space.shorten(table, address, size, by);
    let next = done.space;
    let answer = done.answer;
    let shorter = noted(run, next, draw, number_of(answer), 0);
    let space = shorter.space;
    let done = space.extend(table, address, size.wrapping_sub(by), by);
    let next = done.space;
    let answer = done.answer;
    noted(shorter, next, draw, number_of(answer), 0)
}

// A live piece, found from any entry on, is shortened and extended.
fn resize(table: &mut [u64], run: Run) -> Run {
    let draw = drawn(run.draw);
    let space = run.space;
    let Some(live) = any_live(table, space, draw) else {
        return run;
    };
    there_and_back(table, run, draw, live.address, live.size, change_of(draw))
}

// One allocation, if the table has fewer entries than that.
fn allocate_below(table: &mut [u64], run: Run, entries: u64) -> Run {
    let space = run.space;
    if space.count < entries {
        return allocate(table, run);
    }
    run
}

// Allocations until the table has so many entries.
fn filled(table: &mut [u64], start: Run, entries: u64) -> Run {
    let mut run = start;
    for _ in 0..entries {
        run = allocate_below(table, run, entries);
    }
    run
}

// A live piece is released, another one allocated, and a third shortened and extended.
fn turn(table: &mut [u64], run: Run) -> Run {
    let less = release(table, run);
    let more = allocate(table, less);
    resize(table, more)
}

fn turned(table: &mut [u64], start: Run, turns: u64) -> Run {
    let mut run = start;
    for _ in 0..turns {
        run = turn(table, run);
    }
    run
}

// What is counted from here on, in a space that is filled.
fn counted_anew(run: Run) -> Run {
    Run {
        accepted: 0,
        entries: 0,
        ..run
    }
}

fn worked(table: &mut [u64], wish: Wish) -> Run {
    let opened = Space::open(PAGE, LIMIT, table);
    let space = opened.space;
    let start = Run {
        space,
        draw: FIRST_DRAW,
        sum: 0,
        accepted: 0,
        entries: 0,
    };
    let ready = counted_anew(filled(table, start, wish.entries));
    let part = Part::from(wish.part);
    match Way::from(wish.way) {
        Way::Plain => turned(table, ready, wish.turns),
        Way::WithSummary => with::turned(table, ready, wish.turns),
        Way::NamesDrawn => named::names(table, ready, part, false, wish.turns),
        Way::NamesFound => named::names(table, ready, part, true, wish.turns),
        Way::CallsByName => named::turned(table, ready, part, wish.turns),
    }
}

// A number with one digit more, as long as it stays small.
fn with_digit(n: u64, byte: u8) -> u64 {
    match byte {
        b'0'..=b'9' if n < 100000000 => n * 10 + u64::from(byte - b'0'),
        _ => n,
    }
}

// What standard input asks for.
#[derive(Clone, Copy)]
struct Wish {
    entries: u64,
    capacity: u64,
    turns: u64,
    way: u64,
    part: u64,
}

// The number that a word says: what is no digit is passed over.
fn value_of(word: &[u8]) -> u64 {
    word.iter().fold(0, |n, byte| with_digit(n, *byte))
}

// The five numbers of the text, each behind a space.
fn asked(text: &[u8]) -> Wish {
    let mut words = text.split(|byte| *byte == b' ').map(value_of);
    Wish {
        entries: words.next().unwrap_or(0),
        capacity: words.next().unwrap_or(0),
        turns: words.next().unwrap_or(0),
        way: words.next().unwrap_or(0),
        part: words.next().unwrap_or(0),
    }
}

// The words to lend for so many entries.
fn words_for(capacity: u64) -> usize
    ensures { result ≤ 1024 * entry_words }
{
    capacity.min(MOST_ENTRIES as u64) as usize * ENTRY_WORDS
}

// The words of which a table is lent. The `ensures` gives the length, which lending a part of them needs.
fn zero_words() -> [u64; MOST_WORDS]
    ensures { 1024 * entry_words ≡ length result }
{
    [0; MOST_WORDS]
}

// Reads until the text is full, the input is over or a read fails, and answers how many bytes were read. By hand, since what std has for it needs a heap,
// or fails where the input is shorter.
fn read_full(mut stdin: Stdin, text: &mut [u8]) -> usize
    ensures { result ≤ length text.new }
{
    let mut done = 0;
    while done < text.len() {
        match stdin.read(&mut text[done..]) {
            Ok(0) | Err(_) => {
                return done;
            }
            Ok(n) => done += n,
        }
    }
    done
}

fn main(rt: HostRuntime) {
    let stdout = rt.stdout();
    let mut text = [0u8; 64];
    let got = read_full(rt.stdin(), &mut text);
    let wish = asked(&text[..got]);
    let mut table = zero_words();
    let words = words_for(wish.capacity);
    let run = worked(&mut table[..words], wish);
    let _ = println!(stdout; "checksum {}", run.sum);
    let _ = println!(stdout; "accepted {}", run.accepted);
    let _ = println!(stdout; "entries in all {}", run.entries);
    let _ = println!(stdout; "end {}", run.space.end);
}
