// Requests: small and large, the best place, refusals 3, 4, 5 (2 is with the damaged tables, 6 with the full ones), and P = 1,000 beside 512.
use crate::cases::{answers_and_leaves, one, placed, two};
use crate::scenes;
use call::Call;
use show::answer::Answer;
use show::case::refuses;
use show::claim::Tally;
use show::document::TABLE_WORDS;
use show::scene;
use show::scene::Scene;
use space::place::{METADATA, RAW};
use std::io::Stdout;

// That a raw piece of this size goes to address 0, and leaves this.
fn given(stdout: Stdout, t: Tally, claim: &[u8], s: Scene, size: u64, after: Scene) -> Tally {
    let call = Call::Allocate(RAW, size);
    answers_and_leaves(stdout, t, claim, s, call, Answer::At(0), after)
}

fn small_and_large(stdout: Stdout, t: Tally) -> Tally {
    let c: [&[u8]; 4] = [
        b"with P = 512 size 511 is small",
        b"with P = 512 size 512 is large",
        b"with P = 1000 size 999 is small",
        b"with P = 1000 size 1000 is large",
    ];
    let s = scenes::empty();
    let t = given(stdout, t, c[0], s, 511, two(s, 511, 2, 1, 5));
    let t = given(stdout, t, c[1], s, 512, one(s, 512, 3));
    let s = scenes::opened(1000, 5000, TABLE_WORDS);
    let t = given(stdout, t, c[2], s, 999, two(s, 999, 2, 1, 5));
    given(stdout, t, c[3], s, 1000, one(s, 1000, 3))
}

fn codes_and_sizes(stdout: Stdout, t: Tally) -> Tally {
    let c: [&[u8]; 8] = [
        b"type 0 is refused 3",
        b"type 1, metadata, is known",
        b"type 2, raw, is known",
        b"type 3 is refused 3",
        b"type 2^64 - 1 is refused 3",
        b"an unknown type is 3 before 4",
        b"size 0 is refused 4",
        b"size 1 is given",
    ];
    let s = scenes::empty();
    let t = refuses(stdout, t, c[0], s, Call::Allocate(0, 1), 3);
    let t = placed(stdout, t, c[1], s, Call::Allocate(1, 1), 0, 512);
    let t = placed(stdout, t, c[2], s, Call::Allocate(2, 1), 0, 512);
    let t = refuses(stdout, t, c[3], s, Call::Allocate(3, 1), 3);
    let t = refuses(stdout, t, c[4], s, Call::Allocate(u64::MAX, 1), 3);
    let t = refuses(stdout, t, c[5], s, Call::Allocate(0, 0), 3);
    let t = refuses(stdout, t, c[6], s, Call::Allocate(RAW, 0), 4);
    placed(stdout, t, c[7], s, Call::Allocate(METADATA, 1), 0, 512)
}

fn limits(stdout: Stdout, t: Tally) -> Tally {
    let c: [&[u8]; 8] = [
        b"M = 5120 allows E = 5120",
        b"M = 5120 allows no more: size 5121 is refused 5",
        b"raw 2^64 - 1 is refused 5",
        b"metadata 2^64 - 1 is refused 5",
        b"after step 5 raw 2560 ends at M",
        b"after step 5 raw 2561 is refused 5",
        b"at E = M a small request that fits a section is given",
        b"at E = M a small request that fits none is refused 5",
    ];
    let s = scenes::empty();
    let t = placed(stdout, t, c[0], s, Call::Allocate(RAW, 5120), 0, 5120);
    let t = refuses(stdout, t, c[1], s, Call::Allocate(RAW, 5121), 5);
    let t = refuses(stdout, t, c[2], s, Call::Allocate(RAW, u64::MAX), 5);
    let t = refuses(stdout, t, c[3], s, Call::Allocate(METADATA, u64::MAX), 5);
    let s = scenes::five();
    let t = placed(stdout, t, c[4], s, Call::Allocate(RAW, 2560), 2560, 5120);
    let t = refuses(stdout, t, c[5], s, Call::Allocate(RAW, 2561), 5);
    let s = scene::after(s, Call::Allocate(RAW, 2560));
    let t = placed(stdout, t, c[6], s, Call::Allocate(RAW, 412), 612, 5120);
    refuses(stdout, t, c[7], s, Call::Allocate(RAW, 413), 5)
}

fn limit_within_a_page(stdout: Stdout, t: Tally) -> Tally {
    let c: [&[u8]; 4] = [
        b"M = 5000 allows E = 4608",
        b"M = 5000 allows no more: size 4609 is refused 5",
        b"M = 5000 at E = 4608 refuses one small byte with 5",
        b"M = 5000 at E = 4608 refuses a page with 5",
    ];
    let s = scenes::opened(512, 5000, TABLE_WORDS);
    let t = placed(stdout, t, c[0], s, Call::Allocate(RAW, 4608), 0, 4608);
    let t = refuses(stdout, t, c[1], s, Call::Allocate(RAW, 4609), 5);
    let s = scene::after(s, Call::Allocate(RAW, 4608));
    let t = refuses(stdout, t, c[2], s, Call::Allocate(METADATA, 1), 5);
    refuses(stdout, t, c[3], s, Call::Allocate(RAW, 512), 5)
}

// Free raw sections of 112, 12 and 12 bytes, in this order of addresses.
fn three_sections() -> Scene {
    let s = scene::after(scenes::empty(), Call::Allocate(RAW, 400));
    let s = scene::after(s, Call::Allocate(RAW, 500));
    scene::after(s, Call::Allocate(RAW, 500))
}

// A free large entry that starts within a page, behind a piece of `size` bytes, and holds two whole pages, the first at `border`. There a
// piece of `border` bytes was released, and behind it a page is live.
fn misaligned(page: u64, limit: u64, size: u64, border: u64) -> Scene {
    let s = scene::after(
        scenes::opened(page, limit, TABLE_WORDS),
        Call::Allocate(RAW, size),
    );
    let s = scene::after(s, Call::Allocate(RAW, border));
    let s = scene::after(s, Call::Allocate(RAW, page));
    scene::after(s, Call::Release(border, border))
}

fn best_place(stdout: Stdout, t: Tally) -> Tally {
    let c: [&[u8]; 7] = [
        b"a smaller section that lies higher is taken, the lowest of equals",
        b"an exact fit is taken",
        b"a byte more goes to the larger section",
        b"metadata takes no section of raw data",
        b"a small request gets no misaligned rest of a large piece",
        b"of a misaligned free large entry a small request gets the first whole page",
        b"P = 1000: of a misaligned free large entry a small request gets the first whole page",
    ];
    let s = three_sections();
    let t = placed(stdout, t, c[0], s, Call::Allocate(RAW, 10), 1012, 1536);
    let t = placed(stdout, t, c[1], s, Call::Allocate(RAW, 12), 1012, 1536);
    let t = placed(stdout, t, c[2], s, Call::Allocate(RAW, 13), 400, 1536);
    let t = placed(stdout, t, c[3], s, Call::Allocate(METADATA, 10), 1536, 2048);
    let s = scene::after(scenes::empty(), Call::Allocate(RAW, 700));
    let t = placed(stdout, t, c[4], s, Call::Allocate(RAW, 10), 1024, 1536);
    let s = misaligned(512, 5120, 700, 1024);
    let t = placed(stdout, t, c[5], s, Call::Allocate(METADATA, 10), 1024, 2560);
    let s = misaligned(1000, 5000, 1500, 2000);
    placed(stdout, t, c[6], s, Call::Allocate(METADATA, 10), 2000, 5000)
}

fn large_places(stdout: Stdout, t: Tally) -> Tally {
    let c: [&[u8]; 4] = [
        b"a large request goes to the start of a free large entry that starts at a border",
        b"a large request takes all of such an entry",
        b"a large request takes a misaligned free large entry from its first border to its end",
        b"a byte more has no room there, though the entry has more bytes, and goes to the end",
    ];
    let s = scene::after(scenes::five(), Call::Release(1024, 700));
    let t = placed(stdout, t, c[0], s, Call::Allocate(RAW, 512), 1024, 2560);
    let t = placed(stdout, t, c[1], s, Call::Allocate(RAW, 1024), 1024, 2560);
    let s = misaligned(512, 5120, 700, 1024);
    let t = placed(stdout, t, c[2], s, Call::Allocate(RAW, 1024), 1024, 2560);
    placed(stdout, t, c[3], s, Call::Allocate(RAW, 1025), 2560, 4096)
}

// The same five requests, with P = 512 and with P = 1,000.
fn beside_512(stdout: Stdout, t: Tally) -> Tally {
    let c: [&[u8]; 7] = [
        b"P = 512: after metadata 96, raw 100, metadata 416, raw 700, metadata 10, raw 1000 is at 2560",
        b"P = 1000: metadata 96 is at 0",
        b"P = 1000: raw 100 is at 1000",
        b"P = 1000: metadata 416 is at 96",
        b"P = 1000: raw 700, small here, is at 1100",
        b"P = 1000: metadata 10 is at 512",
        b"P = 1000: raw 1000, large, is at 2000",
    ];
    let s = scenes::five();
    let t = placed(stdout, t, c[0], s, Call::Allocate(RAW, 1000), 2560, 3584);
    let s = scenes::opened(1000, 5000, TABLE_WORDS);
    let t = placed(stdout, t, c[1], s, Call::Allocate(METADATA, 96), 0, 1000);
    let s = scene::after(s, Call::Allocate(METADATA, 96));
    let t = placed(stdout, t, c[2], s, Call::Allocate(RAW, 100), 1000, 2000);
    let s = scene::after(s, Call::Allocate(RAW, 100));
    let t = placed(stdout, t, c[3], s, Call::Allocate(METADATA, 416), 96, 2000);
    let s = scene::after(s, Call::Allocate(METADATA, 416));
    let t = placed(stdout, t, c[4], s, Call::Allocate(RAW, 700), 1100, 2000);
    let s = scene::after(s, Call::Allocate(RAW, 700));
    let t = placed(stdout, t, c[5], s, Call::Allocate(METADATA, 10), 512, 2000);
    let s = scene::after(s, Call::Allocate(METADATA, 10));
    placed(stdout, t, c[6], s, Call::Allocate(RAW, 1000), 2000, 3000)
}

fn borders_of_1000(stdout: Stdout, t: Tally) -> Tally {
    let c: [&[u8]; 3] = [
        b"P = 1000, M = 5000 allows E = 5000",
        b"P = 1000, M = 5000 allows no more",
        b"P = 1000: behind a large piece of 1500 a page is at 2000",
    ];
    let s = scenes::opened(1000, 5000, TABLE_WORDS);
    let t = placed(stdout, t, c[0], s, Call::Allocate(RAW, 5000), 0, 5000);
    let t = refuses(stdout, t, c[1], s, Call::Allocate(RAW, 5001), 5);
    let s = scene::after(s, Call::Allocate(RAW, 1500));
    placed(stdout, t, c[2], s, Call::Allocate(RAW, 1000), 2000, 3000)
}

pub fn all(stdout: Stdout, t: Tally) -> Tally {
    let t = limits(stdout, codes_and_sizes(stdout, small_and_large(stdout, t)));
    let t = large_places(stdout, best_place(stdout, limit_within_a_page(stdout, t)));
    borders_of_1000(stdout, beside_512(stdout, t))
}
