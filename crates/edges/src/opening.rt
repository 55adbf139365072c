// Opening: refusal 1, from both sides of each range. The table's words are all 9 before.
ghost use Rattle.std.specs.Prelude.{◌≡◌, ◌*◌, ◌≤◌, length};
ghost use Rattle.pieces.specs.Words.{entry_words};

use crate::scenes;
use pieces::ENTRY_WORDS;
use show::answer::Answer;
use show::claim::{Tally, say_claim};
use show::document::TABLE_WORDS;
use show::{answer, case, scene};
use space::Space;
use space::answers::{OUT_OF_RANGE, number_of};
use std::io::Stdout;

// Two entries more than a table may have.
const LONG_WORDS: usize = 1026 * ENTRY_WORDS;

const LEAST_WORDS: usize = 4 * ENTRY_WORDS;

const MOST_WORDS: usize = 1024 * ENTRY_WORDS;

const LARGEST_LIMIT: u64 = 4611686018427387904;

fn nines() -> [u64; LONG_WORDS]
    ensures { 1026 * entry_words ≡ length result }
{
    [9u64; LONG_WORDS]
}

fn part(len: usize) -> usize
    ensures { result ≤ 1026 * entry_words }
{
    len.min(LONG_WORDS)
}

// Whether the words are 0 up to this index, and as they came from there on.
fn is_cleared(words: &[u64], len: usize) -> bool {
    words
        .iter()
        .enumerate()
        .all(|(i, word)| *word == if i < len { 0 } else { 9 })
}

// That an opening over the first `len` words has this answer, gives this state, and makes so many words 0.
fn answers(
    stdout: Stdout,
    t: Tally,
    claim: &[u8],
    page: u64,
    limit: u64,
    len: usize,
    expected: Answer,
    given: Space,
    cleared: usize,
) -> Tally {
    let mut words = nines();
    let lent = part(len);
    let done = Space::open(page, limit, &mut words[..lent]);
    let found = answer::of_number(number_of(done.answer), Answer::Done);
    let held = expected == found && given == done.space && is_cleared(&words, cleared);
    say_claim(stdout, held, claim);
    if !held {
        let _ = println!(stdout;
            "that answer, its state and its words, found others; the answer found: {found}"
        );
    }
    t.count(held)
}

// That the opening is done, gives E = 0 and n = 0, and makes every lent word 0.
fn opens(stdout: Stdout, t: Tally, claim: &[u8], page: u64, limit: u64, len: usize) -> Tally {
    let given = Space {
        page,
        limit,
        end: 0,
        count: 0,
    };
    answers(stdout, t, claim, page, limit, len, Answer::Done, given, len)
}

// That the opening is refused with 1, gives four zeros, and leaves every word.
fn refuses(stdout: Stdout, t: Tally, claim: &[u8], page: u64, limit: u64, len: usize) -> Tally {
    let given = Space {
        page: 0,
        limit: 0,
        end: 0,
        count: 0,
    };
    let expected = Answer::Refused(OUT_OF_RANGE);
    answers(stdout, t, claim, page, limit, len, expected, given, 0)
}

fn pages(stdout: Stdout, t: Tally) -> Tally {
    let c: [&[u8]; 7] = [
        b"P = 0 is refused 1",
        b"P = 511 is refused 1",
        b"P = 512 is opened",
        b"P = 1000 is opened",
        b"P = 2^30 is opened",
        b"P = 2^30 + 1 is refused 1",
        b"P = 2^64 - 1 is refused 1",
    ];
    let t = refuses(stdout, t, c[0], 0, 5120, TABLE_WORDS);
    let t = refuses(stdout, t, c[1], 511, 5120, TABLE_WORDS);
    let t = opens(stdout, t, c[2], 512, 5120, TABLE_WORDS);
    let t = opens(stdout, t, c[3], 1000, 5000, TABLE_WORDS);
    let t = opens(stdout, t, c[4], 1073741824, LARGEST_LIMIT, TABLE_WORDS);
    let t = refuses(stdout, t, c[5], 1073741825, LARGEST_LIMIT, TABLE_WORDS);
    refuses(stdout, t, c[6], u64::MAX, u64::MAX, TABLE_WORDS)
}

fn limits(stdout: Stdout, t: Tally) -> Tally {
    let c: [&[u8]; 6] = [
        b"M = 0 is refused 1",
        b"M = P - 1 is refused 1",
        b"M = P is opened",
        b"M = 2^62 is opened",
        b"M = 2^62 + 1 is refused 1",
        b"M = 2^64 - 1 is refused 1",
    ];
    let t = refuses(stdout, t, c[0], 512, 0, TABLE_WORDS);
    let t = refuses(stdout, t, c[1], 512, 511, TABLE_WORDS);
    let t = opens(stdout, t, c[2], 512, 512, TABLE_WORDS);
    let t = opens(stdout, t, c[3], 512, LARGEST_LIMIT, TABLE_WORDS);
    let t = refuses(stdout, t, c[4], 512, LARGEST_LIMIT + 1, TABLE_WORDS);
    refuses(stdout, t, c[5], 512, u64::MAX, TABLE_WORDS)
}

fn lengths(stdout: Stdout, t: Tally) -> Tally {
    let c: [&[u8]; 10] = [
        b"a table of no words is refused 1",
        b"9 words are refused 1",
        b"11 words are refused 1",
        b"12 words are opened, C = 4",
        b"13 words are refused 1",
        b"14 words are refused 1",
        b"15 words are opened",
        b"3072 words are opened, C = 1024",
        b"3073 words are refused 1",
        b"3075 words are refused 1",
    ];
    let t = refuses(stdout, t, c[0], 512, 5120, 0);
    let t = refuses(stdout, t, c[1], 512, 5120, 3 * ENTRY_WORDS);
    let t = refuses(stdout, t, c[2], 512, 5120, LEAST_WORDS - 1);
    let t = opens(stdout, t, c[3], 512, 5120, LEAST_WORDS);
    let t = refuses(stdout, t, c[4], 512, 5120, LEAST_WORDS + 1);
    let t = refuses(stdout, t, c[5], 512, 5120, LEAST_WORDS + 2);
    let t = opens(stdout, t, c[6], 512, 5120, 5 * ENTRY_WORDS);
    let t = opens(stdout, t, c[7], 512, 5120, MOST_WORDS);
    let t = refuses(stdout, t, c[8], 512, 5120, MOST_WORDS + 1);
    refuses(stdout, t, c[9], 512, 5120, 1025 * ENTRY_WORDS)
}

fn by_default(stdout: Stdout, t: Tally) -> Tally {
    let c = b"the default opening has P = 65536 and M = 2^62";
    let found = scene::open_default().scene;
    let expected = scenes::opened(65536, LARGEST_LIMIT, scene::WORDS);
    case::same(stdout, t, c, expected, found)
}

pub fn all(stdout: Stdout, t: Tally) -> Tally {
    by_default(stdout, lengths(stdout, limits(stdout, pages(stdout, t))))
}
