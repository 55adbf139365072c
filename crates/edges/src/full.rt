// A table with exactly C entries, C = 4: refusal 6 from both sides. A release never needs an entry more than there are, so release's refusal 6
// cannot come, and there is no case for it.
use crate::cases::{done, placed};
use crate::scenes;
use call::Call;
use show::case::refuses;
use show::claim::Tally;
use show::scene;
use space::place::{METADATA, RAW};
use std::io::Stdout;

fn requests(stdout: Stdout, t: Tally) -> Tally {
    let c: [&[u8]; 7] = [
        b"C = 4: the table has 4 entries",
        b"C = 4: an exact fit needs no entry more, and is given",
        b"C = 4: a request that leaves a rest needs a fifth, refused 6",
        b"C = 4: a page at the end needs a fifth, refused 6",
        b"C = 4: beyond the limit is 5 before 6",
        b"C = 4: up to the limit it is 6",
        b"C = 4: no second place is tried, metadata 1 is refused 6",
    ];
    let s = scenes::full();
    let state = s.space;
    let t = t.equal(stdout, c[0], 4, state.count);
    let t = placed(stdout, t, c[1], s, Call::Allocate(RAW, 412), 100, 1024);
    let t = refuses(stdout, t, c[2], s, Call::Allocate(RAW, 411), 6);
    let t = refuses(stdout, t, c[3], s, Call::Allocate(RAW, 512), 6);
    let t = refuses(stdout, t, c[4], s, Call::Allocate(RAW, 4097), 5);
    let t = refuses(stdout, t, c[5], s, Call::Allocate(RAW, 4096), 6);
    refuses(stdout, t, c[6], s, Call::Allocate(METADATA, 1), 6)
}

fn shortens(stdout: Stdout, t: Tally) -> Tally {
    let c: [&[u8]; 4] = [
        b"C = 4: a shorten beside a free entry needs no entry more, and is done",
        b"C = 4: a shorten between live pieces needs a fifth, refused 6",
        b"C = 4: a shorten at a page's border needs a fifth, refused 6",
        b"C = 4: a shorten that leaves nothing is 9 before 6",
    ];
    let s = scenes::full();
    let t = done(stdout, t, c[0], s, Call::Shorten(0, 100, 50), 1024);
    let s = scene::after(s, Call::Allocate(RAW, 412));
    let t = refuses(stdout, t, c[1], s, Call::Shorten(0, 100, 50), 6);
    let t = refuses(stdout, t, c[2], s, Call::Shorten(100, 412, 1), 6);
    refuses(stdout, t, c[3], s, Call::Shorten(0, 100, 100), 9)
}

fn extends(stdout: Stdout, t: Tally) -> Tally {
    let c: [&[u8]; 6] = [
        b"C = 4: the table with large pieces has 4 entries",
        b"C = 4: extending by whole pages needs no entry more, and is done",
        b"C = 4: extending by a byte leaves a rest, a fifth entry, refused 6",
        b"C = 4: extending up to the limit with a rest is refused 6",
        b"C = 4: extending beyond the limit is 5 before 6",
        b"C = 4: extending up to the limit is done",
    ];
    let s = scenes::full_of_large();
    let state = s.space;
    let t = t.equal(stdout, c[0], 4, state.count);
    let t = done(stdout, t, c[1], s, Call::Extend(1024, 512, 512), 2048);
    let t = refuses(stdout, t, c[2], s, Call::Extend(1024, 512, 1), 6);
    let t = refuses(stdout, t, c[3], s, Call::Extend(1024, 512, 3583), 6);
    let t = refuses(stdout, t, c[4], s, Call::Extend(1024, 512, 3585), 5);
    done(stdout, t, c[5], s, Call::Extend(1024, 512, 3584), 5120)
}

fn releases(stdout: Stdout, t: Tally) -> Tally {
    let c: [&[u8]; 2] = [
        b"C = 4: each release in a full table is done: raw",
        b"C = 4: each release in a full table is done: metadata",
    ];
    let s = scenes::full();
    let t = done(stdout, t, c[0], s, Call::Release(0, 100), 1024);
    done(stdout, t, c[1], s, Call::Release(512, 100), 512)
}

pub fn all(stdout: Stdout, t: Tally) -> Tally {
    releases(
        stdout,
        extends(stdout, shortens(stdout, requests(stdout, t))),
    )
}
