// Listing: refusals 2, 3, 10, and what a list slice holds after each call. Its six words are all 7 before.
ghost use Rattle.std.specs.Prelude.{◌≤◌};

use crate::scenes;
use call::Call;
use show::answer::Answer;
use show::claim::{Tally, say_claim};
use show::document::TABLE_WORDS;
use show::scene::Scene;
use show::{answer, scene};
use space::answers::number_of;
use space::place::{METADATA, RAW};
use std::fmt;
use std::io::Stdout;

const LIST_WORDS: usize = 6;

const UNTOUCHED: [u64; LIST_WORDS] = [7; LIST_WORDS];

// What a listing answers, and what its six words then are.
#[derive(Clone, Copy, PartialEq, Eq)]
struct Listed {
    answer: Answer,
    out: [u64; LIST_WORDS],
}

impl fmt::Display for Listed {
    fn fmt<W: fmt::Write>(&self, f: &mut fmt::Formatter<W>) -> fmt::Result {
        let answer = self.answer;
        let [address, size, next_address, next_size, ..] = self.out;
        write!(
            f,
            "{answer}, with the words {address} {size} {next_address} {next_size} .."
        )
    }
}

// The same, and the table and the state behind it.
#[derive(Clone, Copy)]
struct Lists {
    listed: Listed,
    scene: Scene,
}

// So many sections, and these words.
fn given(sections: u64, out: [u64; LIST_WORDS]) -> Listed {
    Listed {
        answer: Answer::Sections(sections),
        out,
    }
}

// A refusal, and no word written.
fn refused(number: u64) -> Listed {
    Listed {
        answer: Answer::Refused(number),
        out: UNTOUCHED,
    }
}

fn part(len: usize) -> usize
    ensures { result ≤ 6 }
{
    len.min(LIST_WORDS)
}

// A listing into the first `len` of six words.
fn list(s: Scene, manager: u64, len: usize) -> Lists {
    let table = s.words;
    let lent = scene::part(s.len);
    let mut out = UNTOUCHED;
    let most = part(len);
    let state = s.space;
    let done = state.list(&table[..lent], manager, &mut out[..most]);
    let said = done.answer;
    let answer = answer::of_number(number_of(said), Answer::Sections(said.unwrap_or(0)));
    Lists {
        listed: Listed { answer, out },
        scene: Scene {
            space: done.space,
            words: table,
            len: s.len,
        },
    }
}

// Whether the answer and the words of the list slice are these, and the table and the state are as they came.
fn holds(s: Scene, found: Lists, expected: Listed) -> bool {
    expected == found.listed && scene::same_scene(s, found.scene)
}

pub fn is_refused(s: Scene, manager: u64, number: u64) -> bool {
    holds(s, list(s, manager, LIST_WORDS), refused(number))
}

// That a listing into the first `len` words has this answer, and leaves these words.
fn answers(
    stdout: Stdout,
    t: Tally,
    claim: &[u8],
    s: Scene,
    manager: u64,
    len: usize,
    expected: Listed,
) -> Tally {
    let found = list(s, manager, len);
    let held = holds(s, found, expected);
    say_claim(stdout, held, claim);
    if !held {
        let _ = println!(stdout; "{expected}, found {}", found.listed);
    }
    t.count(held)
}

// That one section is listed, and the four words behind it stay.
fn lists_one(
    stdout: Stdout,
    t: Tally,
    claim: &[u8],
    s: Scene,
    manager: u64,
    len: usize,
    address: u64,
    size: u64,
) -> Tally {
    let expected = given(1, [address, size, 7, 7, 7, 7]);
    answers(stdout, t, claim, s, manager, len, expected)
}

// That the listing is refused with this number, and no word is written.
fn refuses(
    stdout: Stdout,
    t: Tally,
    claim: &[u8],
    s: Scene,
    manager: u64,
    len: usize,
    number: u64,
) -> Tally {
    answers(stdout, t, claim, s, manager, len, refused(number))
}

// Two free sections of raw data: after step 5 a second page of raw data is begun.
fn two_raw() -> Scene {
    scene::after(scenes::five(), Call::Allocate(RAW, 500))
}

fn managers(stdout: Stdout, t: Tally) -> Tally {
    let c: [&[u8]; 6] = [
        b"listing manager 0 is refused 3",
        b"manager 1 lists (2058, 502)",
        b"manager 2 lists (612, 412)",
        b"manager 3 lists (1724, 324)",
        b"listing manager 4 is refused 3",
        b"listing manager 2^64 - 1 is refused 3",
    ];
    let s = scenes::five();
    let t = refuses(stdout, t, c[0], s, 0, 6, 3);
    let t = lists_one(stdout, t, c[1], s, METADATA, 6, 2058, 502);
    let t = lists_one(stdout, t, c[2], s, RAW, 6, 612, 412);
    let t = lists_one(stdout, t, c[3], s, 3, 6, 1724, 324);
    let t = refuses(stdout, t, c[4], s, 4, 6, 3);
    refuses(stdout, t, c[5], s, u64::MAX, 6, 3)
}

fn lengths(stdout: Stdout, t: Tally) -> Tally {
    let c: [&[u8]; 7] = [
        b"no word for one section is refused 10",
        b"1 word for one section is refused 10",
        b"2 words hold one section",
        b"an unknown manager is 3 before 10",
        b"3 words for two sections are refused 10",
        b"4 words hold two sections, in address order",
        b"no word is enough for no section",
    ];
    let s = scenes::five();
    let t = refuses(stdout, t, c[0], s, RAW, 0, 10);
    let t = refuses(stdout, t, c[1], s, RAW, 1, 10);
    let t = lists_one(stdout, t, c[2], s, RAW, 2, 612, 412);
    let t = refuses(stdout, t, c[3], s, 4, 0, 3);
    let two = two_raw();
    let t = refuses(stdout, t, c[4], two, RAW, 3, 10);
    let both = given(2, [612, 412, 3060, 12, 7, 7]);
    let t = answers(stdout, t, c[5], two, RAW, 4, both);
    let none = scenes::empty();
    answers(stdout, t, c[6], none, RAW, 0, given(0, UNTOUCHED))
}

pub fn all(stdout: Stdout, t: Tally) -> Tally {
    let c = b"listing the state of a refused opening is refused 2";
    let closed = scenes::opened(511, 5120, TABLE_WORDS);
    let t = refuses(stdout, t, c, closed, RAW, 6, 2);
    lengths(stdout, managers(stdout, t))
}
