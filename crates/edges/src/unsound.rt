// Tables that break one rule of a sound table and keep all others: every call refuses 2. And tables that keep a rule by a byte: no call does.
use crate::cases::{added, one, two};
use crate::damage::{broken, sound, with_word};
use crate::scenes;
use show::claim::Tally;
use std::io::Stdout;

fn entries(stdout: Stdout, t: Tally) -> Tally {
    let c: [&[u8]; 8] = [
        b"E = 600, no multiple of P, with a piece that ends there is refused 2",
        b"a small entry of P bytes is refused 2",
        b"a small entry over a page's border is refused 2",
        b"a large piece that starts within a page is refused 2",
        b"a large piece of less than P bytes is refused 2",
        b"an entry of no bytes is refused 2",
        b"an entry of one byte is sound",
        b"a piece of P + 1 bytes with its rest and a page behind it is sound",
    ];
    let s = scenes::empty();
    let t = broken(stdout, t, c[0], one(s, 600, 3));
    let t = broken(stdout, t, c[1], one(s, 512, 1));
    let t = broken(stdout, t, c[2], added(two(s, 300, 1, 424, 1), 300, 1));
    let t = broken(stdout, t, c[3], two(s, 600, 3, 936, 3));
    let t = broken(stdout, t, c[4], two(s, 100, 3, 412, 6));
    let t = broken(stdout, t, c[5], added(two(s, 100, 1, 0, 1), 412, 4));
    let t = sound(stdout, t, c[6], two(s, 511, 1, 1, 4));
    sound(stdout, t, c[7], added(two(s, 513, 3, 511, 6), 512, 3))
}

fn neighbours(stdout: Stdout, t: Tally) -> Tally {
    let c: [&[u8]; 7] = [
        b"two free large neighbours are refused 2",
        b"a free large entry of P bytes at the end is refused 2",
        b"a part page that is free at the end is sound",
        b"a page of kind 0 is refused 2",
        b"a page of kind 7 is refused 2",
        b"n = 5 over a full table of 4 entries is refused 2",
        b"a full table of 4 entries is sound",
    ];
    let s = scenes::empty();
    let t = broken(stdout, t, c[0], added(two(s, 512, 6, 512, 6), 512, 3));
    let t = broken(stdout, t, c[1], two(s, 512, 3, 512, 6));
    let t = sound(stdout, t, c[2], two(s, 513, 3, 511, 6));
    let small = two(s, 100, 1, 412, 1);
    let t = broken(stdout, t, c[3], with_word(with_word(small, 2, 0), 5, 0));
    let t = broken(stdout, t, c[4], with_word(two(s, 512, 6, 512, 3), 2, 7));
    let full = scenes::full();
    let t = broken(stdout, t, c[5], added(full, 0, 6));
    sound(stdout, t, c[6], full)
}

pub fn all(stdout: Stdout, t: Tally) -> Tally {
    neighbours(stdout, entries(stdout, t))
}
