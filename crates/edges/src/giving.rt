// Giving back, lengthening, shortening: refusals 4, 5, 8, 9 and 13 to 16 from both sides (2 is with the damaged tables, 6 with the full ones).
use crate::cases::{added, done, leaves, none, one, two};
use crate::scenes;
use call::Call;
use show::case::refuses;
use show::claim::Tally;
use show::scene;
use show::scene::Scene;
use space::place::{METADATA, RAW};
use std::io::Stdout;

// Document 01's table after step 6: in place of the large piece, its two pages are free.
fn after_step_six() -> Scene {
    let s = added(scenes::twelve(), 1024, 6);
    let s = added(s, 10, 1);
    added(s, 502, 4)
}

fn releases(stdout: Stdout, t: Tally) -> Tally {
    let c: [&[u8]; 11] = [
        b"release (1024, 700), a live piece, is done",
        b"release of a byte less is refused 16",
        b"release of a byte more is refused 16",
        b"release from a byte before, which is free, is refused 14",
        b"release from a byte behind, inside the piece, is refused 15",
        b"release of a free entry is refused 14",
        b"release of size 0 at a live piece's start is refused 16",
        b"release of 2^64 - 1 bytes is refused 16",
        b"release at 2^64 - 1 is refused 13",
        b"release of a zero entry behind the table is refused 16, as (0, 0)",
        b"a second release of the same piece is refused 14, where E stays",
    ];
    let s = scenes::five();
    let t = leaves(
        stdout,
        t,
        c[0],
        s,
        Call::Release(1024, 700),
        after_step_six(),
    );
    let t = refuses(stdout, t, c[1], s, Call::Release(1024, 699), 16);
    let t = refuses(stdout, t, c[2], s, Call::Release(1024, 701), 16);
    let t = refuses(stdout, t, c[3], s, Call::Release(1023, 700), 14);
    let t = refuses(stdout, t, c[4], s, Call::Release(1025, 700), 15);
    let t = refuses(stdout, t, c[5], s, Call::Release(612, 412), 14);
    let t = refuses(stdout, t, c[6], s, Call::Release(1024, 0), 16);
    let t = refuses(stdout, t, c[7], s, Call::Release(0, u64::MAX), 16);
    let t = refuses(stdout, t, c[8], s, Call::Release(u64::MAX, u64::MAX), 13);
    let t = refuses(stdout, t, c[9], s, Call::Release(0, 0), 16);
    let s = scene::after(s, Call::Release(1024, 700));
    refuses(stdout, t, c[10], s, Call::Release(1024, 700), 14)
}

// Where an address lies, at the edges of entries: a file that ends in a free entry, one that ends in a live one, and one of no bytes.
fn wrong_names(stdout: Stdout, t: Tally) -> Tally {
    let c: [&[u8]; 9] = [
        b"the last byte of a free entry, at E - 1, is refused 14",
        b"its first byte is refused 14",
        b"the byte at E is refused 13",
        b"the second byte of a live piece is refused 15",
        b"its last byte is refused 15",
        b"the last byte of a live piece, at E - 1, is refused 15",
        b"the byte at E behind it is refused 13",
        b"a second release of the last piece is refused 13, where E was cut",
        b"with E = 0 every name is refused 13",
    ];
    let s = scenes::five();
    let t = refuses(stdout, t, c[0], s, Call::Release(2559, 1), 14);
    let t = refuses(stdout, t, c[1], s, Call::Release(2058, 502), 14);
    let t = refuses(stdout, t, c[2], s, Call::Release(2560, 502), 13);
    let t = refuses(stdout, t, c[3], s, Call::Release(2049, 9), 15);
    let t = refuses(stdout, t, c[4], s, Call::Release(2057, 1), 15);
    let last = one(s, 512, 3);
    let t = refuses(stdout, t, c[5], last, Call::Release(511, 1), 15);
    let t = refuses(stdout, t, c[6], last, Call::Release(512, 512), 13);
    let s = scene::after(s, Call::Release(2048, 10));
    let t = refuses(stdout, t, c[7], s, Call::Release(2048, 10), 13);
    refuses(stdout, t, c[8], scenes::empty(), Call::Release(0, 0), 13)
}

fn part_pages(stdout: Stdout, t: Tally) -> Tally {
    let c: [&[u8]; 2] = [
        b"whole pages are cut from the end, and a part page stays",
        b"the last piece's release empties the file",
    ];
    let s = scene::after(scenes::empty(), Call::Allocate(RAW, 700));
    let s = scene::after(s, Call::Allocate(RAW, 512));
    let t = leaves(
        stdout,
        t,
        c[0],
        s,
        Call::Release(1024, 512),
        two(s, 700, 3, 324, 6),
    );
    let s = scenes::one();
    leaves(stdout, t, c[1], s, Call::Release(0, 96), none(s))
}

fn extends_small(stdout: Stdout, t: Tally) -> Tally {
    let c: [&[u8]; 10] = [
        b"after step 1 extending (0, 96) by 415 is done",
        b"after step 1 extending (0, 96) by 416 is refused 8",
        b"extending a small piece by 2^64 - 1 is refused 8",
        b"a small piece takes all the room behind it, 316 bytes",
        b"a byte more than that room is refused 8",
        b"with a live piece behind it one byte is refused 8",
        b"a small piece may reach P - 1",
        b"a small piece may not reach P",
        b"a raw piece may reach P - 1",
        b"a raw piece may not reach P",
    ];
    let s = scenes::one();
    let t = leaves(
        stdout,
        t,
        c[0],
        s,
        Call::Extend(0, 96, 415),
        two(s, 511, 1, 1, 4),
    );
    let t = refuses(stdout, t, c[1], s, Call::Extend(0, 96, 416), 8);
    let t = refuses(stdout, t, c[2], s, Call::Extend(0, 96, u64::MAX), 8);
    let next = scene::after(s, Call::Allocate(METADATA, 100));
    let t = leaves(
        stdout,
        t,
        c[3],
        next,
        Call::Extend(96, 100, 316),
        two(next, 96, 1, 416, 1),
    );
    let t = refuses(stdout, t, c[4], next, Call::Extend(96, 100, 317), 8);
    let t = refuses(stdout, t, c[5], next, Call::Extend(0, 96, 1), 8);
    let s = scenes::five();
    let t = done(stdout, t, c[6], s, Call::Extend(2048, 10, 501), 2560);
    let t = refuses(stdout, t, c[7], s, Call::Extend(2048, 10, 502), 8);
    let t = done(stdout, t, c[8], s, Call::Extend(512, 100, 411), 2560);
    refuses(stdout, t, c[9], s, Call::Extend(512, 100, 412), 8)
}

// Two pieces fill a page of this type. The next page begins with a piece of 10 bytes and one of 20.
fn two_pages(code: u64) -> Scene {
    let s = scene::after(scenes::empty(), Call::Allocate(code, 96));
    let s = scene::after(s, Call::Allocate(code, 416));
    let s = scene::after(s, Call::Allocate(code, 10));
    scene::after(s, Call::Allocate(code, 20))
}

// Without the piece of 10 bytes: these two, and behind the border a free entry of their type.
fn free_behind_border(s: Scene, live: u64, free: u64) -> Scene {
    let s = added(two(s, 96, live, 416, live), 10, free);
    added(added(s, 20, live), 482, free)
}

fn extends_at_border(stdout: Stdout, t: Tally) -> Tally {
    let c: [&[u8]; 7] = [
        b"a released piece at a page's start stays metadata",
        b"a released piece at a page's start stays raw",
        b"at a page's border one byte is refused 8, with a free entry of its type behind the border",
        b"at a page's border one byte is refused 8, the same of raw data",
        b"at a page's border one byte is refused 8, with a live piece behind the border",
        b"a small piece that ends at E has no room: one byte is refused 8",
        b"a raw piece that ends at E has no room: one byte is refused 8",
    ];
    let s = two_pages(METADATA);
    let free = free_behind_border(s, 1, 4);
    let t = leaves(stdout, t, c[0], s, Call::Release(512, 10), free);
    let raw = two_pages(RAW);
    let raw_free = free_behind_border(raw, 2, 5);
    let t = leaves(stdout, t, c[1], raw, Call::Release(512, 10), raw_free);
    let t = refuses(stdout, t, c[2], free, Call::Extend(96, 416, 1), 8);
    let t = refuses(stdout, t, c[3], raw_free, Call::Extend(96, 416, 1), 8);
    let t = refuses(stdout, t, c[4], s, Call::Extend(96, 416, 1), 8);
    let last = two(s, 96, 1, 416, 1);
    let t = refuses(stdout, t, c[5], last, Call::Extend(96, 416, 1), 8);
    let last = two(s, 96, 2, 416, 2);
    refuses(stdout, t, c[6], last, Call::Extend(96, 416, 1), 8)
}

fn extends_named(stdout: Stdout, t: Tally) -> Tally {
    let c: [&[u8]; 9] = [
        b"extending by 0 is refused 4",
        b"extending by 1 is done",
        b"extending a piece of size 0 is refused 4",
        b"extending no piece by 0 is 4 before 15",
        b"extending a piece named a byte shorter is refused 16",
        b"extending a free entry is refused 14",
        b"extending from inside a piece is refused 15",
        b"extending a piece of 2^64 - 1 bytes is refused 16",
        b"extending a piece at 2^64 - 1 is refused 13",
    ];
    let s = scenes::five();
    let t = refuses(stdout, t, c[0], s, Call::Extend(1024, 700, 0), 4);
    let t = done(stdout, t, c[1], s, Call::Extend(1024, 700, 1), 2560);
    let t = refuses(stdout, t, c[2], s, Call::Extend(1024, 0, 1), 4);
    let t = refuses(stdout, t, c[3], s, Call::Extend(1, 1, 0), 4);
    let t = refuses(stdout, t, c[4], s, Call::Extend(1024, 699, 1), 16);
    let t = refuses(stdout, t, c[5], s, Call::Extend(1724, 324, 1), 14);
    let t = refuses(stdout, t, c[6], s, Call::Extend(1025, 699, 1), 15);
    let t = refuses(stdout, t, c[7], s, Call::Extend(0, u64::MAX, u64::MAX), 16);
    refuses(stdout, t, c[8], s, Call::Extend(u64::MAX, 1, 1), 13)
}

fn extends_large(stdout: Stdout, t: Tally) -> Tally {
    let c: [&[u8]; 11] = [
        b"a large piece takes all of the free large entry behind it, 324 bytes",
        b"a byte more than that entry is refused 8",
        b"a large piece at E grows the file up to M",
        b"a large piece at E grows by the fewest pages",
        b"a large piece at E may not pass M: a byte more is refused 5",
        b"a large piece at E extended by 2^64 - 1 is refused 5",
        b"with a part page behind it a large piece takes that page",
        b"with a part page behind it a byte more is refused 8",
        b"with a part page behind it 2^64 - 1 is refused 8",
        b"with a live small piece behind it a large piece has no room: refused 8",
        b"with a free small entry behind it a large piece has no room: refused 8",
    ];
    let s = scenes::five();
    let t = done(stdout, t, c[0], s, Call::Extend(1024, 700, 324), 2560);
    let t = refuses(stdout, t, c[1], s, Call::Extend(1024, 700, 325), 8);
    let s = scene::after(scenes::empty(), Call::Allocate(RAW, 512));
    let t = leaves(
        stdout,
        t,
        c[2],
        s,
        Call::Extend(0, 512, 4608),
        one(s, 5120, 3),
    );
    let t = leaves(
        stdout,
        t,
        c[3],
        s,
        Call::Extend(0, 512, 513),
        two(s, 1025, 3, 511, 6),
    );
    let t = refuses(stdout, t, c[4], s, Call::Extend(0, 512, 4609), 5);
    let t = refuses(stdout, t, c[5], s, Call::Extend(0, 512, u64::MAX), 5);
    let s = scene::after(scenes::empty(), Call::Allocate(RAW, 700));
    let t = leaves(
        stdout,
        t,
        c[6],
        s,
        Call::Extend(0, 700, 324),
        one(s, 1024, 3),
    );
    let t = refuses(stdout, t, c[7], s, Call::Extend(0, 700, 325), 8);
    let t = refuses(stdout, t, c[8], s, Call::Extend(0, 700, u64::MAX), 8);
    let s = added(two(s, 512, 3, 10, 1), 502, 4);
    let t = refuses(stdout, t, c[9], s, Call::Extend(0, 512, 1), 8);
    let s = added(two(s, 512, 3, 10, 4), 502, 1);
    refuses(stdout, t, c[10], s, Call::Extend(0, 512, 1), 8)
}

fn shortens_named(stdout: Stdout, t: Tally) -> Tally {
    let c: [&[u8]; 9] = [
        b"shortening by 0 is refused 4",
        b"shortening by 1 is done",
        b"shortening a piece of size 0 is refused 4",
        b"shortening no piece by 0 is 4 before 15",
        b"shortening a piece named a byte longer is refused 16",
        b"shortening a free entry is refused 14",
        b"shortening from inside a piece is refused 15",
        b"shortening a piece of 2^64 - 1 bytes is refused 16",
        b"shortening a piece at E is refused 13",
    ];
    let s = scenes::five();
    let t = refuses(stdout, t, c[0], s, Call::Shorten(1024, 700, 0), 4);
    let t = done(stdout, t, c[1], s, Call::Shorten(1024, 700, 1), 2560);
    let t = refuses(stdout, t, c[2], s, Call::Shorten(1024, 0, 1), 4);
    let t = refuses(stdout, t, c[3], s, Call::Shorten(1, 1, 0), 4);
    let t = refuses(stdout, t, c[4], s, Call::Shorten(1024, 701, 1), 16);
    let t = refuses(stdout, t, c[5], s, Call::Shorten(612, 412, 1), 14);
    let t = refuses(stdout, t, c[6], s, Call::Shorten(1723, 1, 1), 15);
    let t = refuses(stdout, t, c[7], s, Call::Shorten(0, u64::MAX, u64::MAX), 16);
    refuses(stdout, t, c[8], s, Call::Shorten(2560, 1, 1), 13)
}

fn shortens(stdout: Stdout, t: Tally) -> Tally {
    let c: [&[u8]; 9] = [
        b"one byte may remain of a small piece",
        b"none may remain of a small piece: refused 9",
        b"less than none: refused 9",
        b"shortening a small piece by 2^64 - 1 is refused 9",
        b"P bytes may remain of a large piece",
        b"P - 1 bytes may not remain of a large piece: refused 9",
        b"shortening a large piece by 2^64 - 1 is refused 9",
        b"a cut of 1024 at the end cuts two pages from the file",
        b"a cut of 1000 at the end cuts one page, and a part page stays",
    ];
    let s = scenes::five();
    let t = done(stdout, t, c[0], s, Call::Shorten(0, 96, 95), 2560);
    let t = refuses(stdout, t, c[1], s, Call::Shorten(0, 96, 96), 9);
    let t = refuses(stdout, t, c[2], s, Call::Shorten(0, 96, 97), 9);
    let t = refuses(stdout, t, c[3], s, Call::Shorten(0, 96, u64::MAX), 9);
    let t = done(stdout, t, c[4], s, Call::Shorten(1024, 700, 188), 2560);
    let t = refuses(stdout, t, c[5], s, Call::Shorten(1024, 700, 189), 9);
    let t = refuses(stdout, t, c[6], s, Call::Shorten(1024, 700, u64::MAX), 9);
    let s = scene::after(scenes::empty(), Call::Allocate(RAW, 2048));
    let t = leaves(
        stdout,
        t,
        c[7],
        s,
        Call::Shorten(0, 2048, 1024),
        one(s, 1024, 3),
    );
    leaves(
        stdout,
        t,
        c[8],
        s,
        Call::Shorten(0, 2048, 1000),
        two(s, 1048, 3, 488, 6),
    )
}

pub fn all(stdout: Stdout, t: Tally) -> Tally {
    let t = part_pages(stdout, wrong_names(stdout, releases(stdout, t)));
    let t = extends_at_border(stdout, extends_small(stdout, t));
    let t = extends_large(stdout, extends_named(stdout, t));
    shortens(stdout, shortens_named(stdout, t))
}
