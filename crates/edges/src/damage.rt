// Tables damaged one word at a time: each word of document 01's table after step 5, and each number of its state, is replaced by other values.
// Each call must then refuse 2, but for the damages that leave a sound table, which are known in advance.
use crate::scenes::with_state;
use crate::{listing, scenes};
use call::Call;
use pieces::ENTRY_WORDS;
use show::answer::Answer;
use show::claim::{Tally, say_claim, say_verdict};
use show::document::TABLE_WORDS;
use show::scene;
use show::scene::Scene;
use space::answers::{BEYOND_END, NOT_SOUND, UNKNOWN_CODE, ZERO_ASKED};
use std::fmt;
use std::io::Stdout;

// The words of the eight entries after step 5.
const ENTRIES_WORDS: usize = 8 * ENTRY_WORDS;

const OTHERS: usize = 13;

// How many damages of a word are refused 2, how many leave a sound table, and how many are neither or other than known.
#[derive(Clone, Copy, Default)]
struct Counts {
    refused: u64,
    sound: u64,
    wrong: u64,
}

impl fmt::Display for Counts {
    fn fmt<W: fmt::Write>(&self, f: &mut fmt::Formatter<W>) -> fmt::Result {
        let Counts {
            refused,
            sound,
            wrong,
        } = self;
        write!(
            f,
            "{refused} other values refused 2, {sound} sound by document 01, {wrong} answered otherwise"
        )
    }
}

// Whether a call is refused with this number, and leaves every word and the state.
fn is_refused(before: Scene, call: Call, number: u64) -> bool {
    let asked = scene::ask(before, call);
    asked.answer == Answer::Refused(number) && scene::same_scene(before, asked.scene)
}

// Whether every call is refused, each with its number. The arguments are such that a sound table refuses them too, each later in its order.
fn all_refuse(s: Scene, allocate: u64, release: u64, change: u64, list: u64) -> bool {
    is_refused(s, Call::Allocate(9, 1), allocate)
        && is_refused(s, Call::Release(u64::MAX, 1), release)
        && is_refused(s, Call::Extend(0, 96, 0), change)
        && is_refused(s, Call::Shorten(0, 96, 0), change)
        && listing::is_refused(s, 9, list)
}

fn is_broken(s: Scene) -> bool {
    all_refuse(s, NOT_SOUND, NOT_SOUND, NOT_SOUND, NOT_SOUND)
}

fn is_sound(s: Scene) -> bool {
    all_refuse(s, UNKNOWN_CODE, BEYOND_END, ZERO_ASKED, UNKNOWN_CODE)
}

// The kind of an entry; of one that a scene has no words for, none.
fn kind_at(s: Scene, entry: usize) -> u64 {
    if entry < scene::ENTRIES {
        return pieces::words_at(&s.words, entry).kind;
    }
    0
}

// The damages that leave a sound table: a live piece of page 0 is free, beside another that is live; the free rest of a small page is live.
// Each is of a kind.
fn known_sound(entry: usize, old: u64, kind: u64) -> bool {
    old != kind && matches!((entry, kind), (0, 4) | (1, 4) | (3, 2) | (7, 1))
}

// A value that is none of the first eight; in place of those, the word's own, which is no damage.
fn beyond_seven(old: u64, value: u64) -> u64 {
    if value < 8 { old } else { value }
}

// The largest number; in place of it the word's own, where its lower neighbour is the largest.
fn largest(old: u64) -> u64 {
    if old == 0 { old } else { u64::MAX }
}

// The values that a word is replaced by, each once: all kinds with 0 and 7, its neighbours, a page more, and two very large ones.
fn other_value(old: u64, k: usize) -> u64 {
    match k {
        0..=7 => k as u64,
        8 => beyond_seven(old, old.wrapping_add(1)),
        9 => beyond_seven(old, old.wrapping_sub(1)),
        10 => old.wrapping_add(512),
        11 => 9223372036854775808,
        _ => largest(old),
    }
}

fn word_at(s: Scene, i: usize) -> u64 {
    s.words.get(i).copied().unwrap_or(0)
}

pub fn with_word(s: Scene, i: usize, value: u64) -> Scene {
    let mut words = s.words;
    if i < scene::WORDS {
        words[i] = value;
    }
    Scene { words, ..s }
}

// One damage. The word's own value is none.
fn try_value(n: Counts, s: Scene, i: usize, value: u64) -> Counts {
    if value == word_at(s, i) {
        return n;
    }
    let damaged = with_word(s, i, value);
    let entry = i / ENTRY_WORDS;
    let mut next = n;
    if known_sound(entry, kind_at(s, entry), kind_at(damaged, entry)) {
        if is_sound(damaged) {
            next.sound = n.sound.saturating_add(1);
            return next;
        }
    } else if is_broken(damaged) {
        next.refused = n.refused.saturating_add(1);
        return next;
    }
    next.wrong = n.wrong.saturating_add(1);
    next
}

fn try_values(s: Scene, i: usize) -> Counts {
    let old = word_at(s, i);
    (0..OTHERS).fold(Counts::default(), |n, k| {
        try_value(n, s, i, other_value(old, k))
    })
}

fn say_place(stdout: Stdout, i: usize) {
    let entry = i / ENTRY_WORDS;
    let what = match i % ENTRY_WORDS {
        0 => "address",
        1 => "size",
        _ => "kind",
    };
    let _ = if i < ENTRIES_WORDS {
        print!(stdout; "word {i}, the {what} of entry {entry}: ")
    } else {
        print!(stdout; "word {i}, behind the entries: ")
    };
}

// The line of a damaged word.
fn damage_word(stdout: Stdout, t: Tally, s: Scene, i: usize) -> Tally {
    let n = try_values(s, i);
    let held = n.wrong == 0;
    say_verdict(stdout, held);
    say_place(stdout, i);
    let _ = println!(stdout; "{n}");
    t.count(held)
}

fn words_in_turn(stdout: Stdout, t: Tally, s: Scene) -> Tally {
    let mut tally = t;
    for i in 0..TABLE_WORDS {
        tally = damage_word(stdout, tally, s, i);
    }
    tally
}

fn judge(stdout: Stdout, t: Tally, claim: &[u8], held: bool) -> Tally {
    say_claim(stdout, held, claim);
    if !held {
        let _ = println!(stdout;
            "each call to refuse what the claim says, found one that does not"
        );
    }
    t.count(held)
}

// That every call refuses 2.
pub fn broken(stdout: Stdout, t: Tally, claim: &[u8], s: Scene) -> Tally {
    judge(stdout, t, claim, is_broken(s))
}

// That no call refuses 2, but what comes after it.
pub fn sound(stdout: Stdout, t: Tally, claim: &[u8], s: Scene) -> Tally {
    judge(stdout, t, claim, is_sound(s))
}

fn pages_and_limits(stdout: Stdout, t: Tally) -> Tally {
    let c: [&[u8]; 10] = [
        b"the state after step 5 is sound",
        b"P = 511 is refused 2 by every call",
        b"P = 513 is refused 2 by every call",
        b"P = 640, which divides E, is refused 2 by every call",
        b"P = 0 is refused 2 by every call",
        b"M = 2559, below E, is refused 2 by every call",
        b"M = 2560, which is E, is sound",
        b"M = 5121 is sound",
        b"M = 2^62 is sound",
        b"M = 2^62 + 1 is refused 2 by every call",
    ];
    let t = sound(stdout, t, c[0], with_state(512, 5120, 2560, 8));
    let t = broken(stdout, t, c[1], with_state(511, 5120, 2560, 8));
    let t = broken(stdout, t, c[2], with_state(513, 5120, 2560, 8));
    let t = broken(stdout, t, c[3], with_state(640, 5120, 2560, 8));
    let t = broken(stdout, t, c[4], with_state(0, 5120, 2560, 8));
    let t = broken(stdout, t, c[5], with_state(512, 2559, 2560, 8));
    let t = sound(stdout, t, c[6], with_state(512, 2560, 2560, 8));
    let t = sound(stdout, t, c[7], with_state(512, 5121, 2560, 8));
    let t = sound(
        stdout,
        t,
        c[8],
        with_state(512, 4611686018427387904, 2560, 8),
    );
    broken(
        stdout,
        t,
        c[9],
        with_state(512, 4611686018427387905, 2560, 8),
    )
}

fn ends_and_counts(stdout: Stdout, t: Tally) -> Tally {
    let c: [&[u8]; 10] = [
        b"E = 2559 is refused 2 by every call",
        b"E a page less is refused 2 by every call",
        b"E a page more is refused 2 by every call",
        b"E = 0 is refused 2 by every call",
        b"n = 7 is refused 2 by every call",
        b"n = 9 is refused 2 by every call",
        b"n = C + 1 is refused 2 by every call",
        b"n = 2^64 - 1 is refused 2 by every call",
        b"E = 0 and n = 0 over these words is refused 2 by every call",
        b"the state of a refused opening is refused 2 by every call",
    ];
    let t = broken(stdout, t, c[0], with_state(512, 5120, 2559, 8));
    let t = broken(stdout, t, c[1], with_state(512, 5120, 2048, 8));
    let t = broken(stdout, t, c[2], with_state(512, 5120, 3072, 8));
    let t = broken(stdout, t, c[3], with_state(512, 5120, 0, 8));
    let t = broken(stdout, t, c[4], with_state(512, 5120, 2560, 7));
    let t = broken(stdout, t, c[5], with_state(512, 5120, 2560, 9));
    let t = broken(stdout, t, c[6], with_state(512, 5120, 2560, 13));
    let t = broken(stdout, t, c[7], with_state(512, 5120, 2560, u64::MAX));
    let t = broken(stdout, t, c[8], with_state(512, 5120, 0, 0));
    broken(stdout, t, c[9], scenes::opened(511, 5120, TABLE_WORDS))
}

pub fn all(stdout: Stdout, t: Tally) -> Tally {
    let t = ends_and_counts(stdout, pages_and_limits(stdout, t));
    words_in_turn(stdout, t, scenes::five())
}
