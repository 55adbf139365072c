// P = 1,000, which is no power of two: release, extend and shorten at their edges, each accepted call with the whole table that it leaves.
use crate::cases::{added, leaves, one, two};
use crate::scenes;
use call::Call;
use show::case::refuses;
use show::claim::Tally;
use show::document::TABLE_WORDS;
use show::scene;
use show::scene::Scene;
use space::place::{METADATA, RAW};
use std::io::Stdout;

// The file with one raw piece of this size.
fn with_raw(size: u64) -> Scene {
    scene::after(
        scenes::opened(1000, 5000, TABLE_WORDS),
        Call::Allocate(RAW, size),
    )
}

// (0, 1500) live large, (1500, 500) free large, (2000, 100) live metadata, (2100, 900) free metadata.
fn large_and_small() -> Scene {
    scene::after(with_raw(1500), Call::Allocate(METADATA, 100))
}

// With page 2 behind it: a metadata piece of this size, and the free rest.
fn with_page(s: Scene, size: u64, rest: u64) -> Scene {
    added(added(s, size, 1), rest, 4)
}

fn releases(stdout: Stdout, t: Tally) -> Tally {
    let c: [&[u8]; 3] = [
        b"P = 1000: release (2000, 100) cuts one page, and a part page stays",
        b"P = 1000: release (0, 1500) merges it with the part page behind it",
        b"P = 1000: release of a byte less is refused 16",
    ];
    let s = large_and_small();
    let w = two(s, 1500, 3, 500, 6);
    let t = leaves(stdout, t, c[0], s, Call::Release(2000, 100), w);
    let w = with_page(one(s, 2000, 6), 100, 900);
    let t = leaves(stdout, t, c[1], s, Call::Release(0, 1500), w);
    refuses(stdout, t, c[2], s, Call::Release(2000, 99), 16)
}

fn extends(stdout: Stdout, t: Tally) -> Tally {
    let c: [&[u8]; 4] = [
        b"P = 1000: a small piece may reach 999",
        b"P = 1000: a small piece may not reach 1000: refused 8",
        b"P = 1000: a large piece takes all of the part page behind it, 500 bytes",
        b"P = 1000: a byte more than that is refused 8",
    ];
    let s = large_and_small();
    let w = with_page(two(s, 1500, 3, 500, 6), 999, 1);
    let t = leaves(stdout, t, c[0], s, Call::Extend(2000, 100, 899), w);
    let t = refuses(stdout, t, c[1], s, Call::Extend(2000, 100, 900), 8);
    let w = with_page(one(s, 2000, 3), 100, 900);
    let t = leaves(stdout, t, c[2], s, Call::Extend(0, 1500, 500), w);
    refuses(stdout, t, c[3], s, Call::Extend(0, 1500, 501), 8)
}

fn extends_at_end(stdout: Stdout, t: Tally) -> Tally {
    let c: [&[u8]; 3] = [
        b"P = 1000: a large piece at E extended by 1 grows the file by one page",
        b"P = 1000: a large piece at E grows the file up to M",
        b"P = 1000: a large piece at E may not pass M: a byte more is refused 5",
    ];
    let s = with_raw(1000);
    let w = two(s, 1001, 3, 999, 6);
    let t = leaves(stdout, t, c[0], s, Call::Extend(0, 1000, 1), w);
    let t = leaves(
        stdout,
        t,
        c[1],
        s,
        Call::Extend(0, 1000, 4000),
        one(s, 5000, 3),
    );
    refuses(stdout, t, c[2], s, Call::Extend(0, 1000, 4001), 5)
}

fn shortens(stdout: Stdout, t: Tally) -> Tally {
    let c: [&[u8]; 4] = [
        b"P = 1000: one byte may remain of a small piece, the rest is one entry",
        b"P = 1000: none may remain of a small piece: refused 9",
        b"P = 1000: 1000 bytes may remain of a large piece, the rest is one entry",
        b"P = 1000: 999 bytes may not remain of a large piece: refused 9",
    ];
    let s = large_and_small();
    let w = with_page(two(s, 1500, 3, 500, 6), 1, 999);
    let t = leaves(stdout, t, c[0], s, Call::Shorten(2000, 100, 99), w);
    let t = refuses(stdout, t, c[1], s, Call::Shorten(2000, 100, 100), 9);
    let w = with_page(two(s, 1000, 3, 1000, 6), 100, 900);
    let t = leaves(stdout, t, c[2], s, Call::Shorten(0, 1500, 500), w);
    refuses(stdout, t, c[3], s, Call::Shorten(0, 1500, 501), 9)
}

fn shortens_at_end(stdout: Stdout, t: Tally) -> Tally {
    let c: [&[u8]; 2] = [
        b"P = 1000: a cut of 1500 at the end cuts two pages from the file",
        b"P = 1000: a cut of 1499 at the end cuts one page, and a part page stays",
    ];
    let s = with_raw(2500);
    let t = leaves(
        stdout,
        t,
        c[0],
        s,
        Call::Shorten(0, 2500, 1500),
        one(s, 1000, 3),
    );
    let w = two(s, 1001, 3, 999, 6);
    leaves(stdout, t, c[1], s, Call::Shorten(0, 2500, 1499), w)
}

pub fn all(stdout: Stdout, t: Tally) -> Tally {
    shortens_at_end(
        stdout,
        shortens(
            stdout,
            extends_at_end(stdout, extends(stdout, releases(stdout, t))),
        ),
    )
}
