// The same workload through the calls with a summary, which must give the same answers. The filling is by the calls without one; then the summary is
// worked out afresh, and each call of a turn takes it.
use crate::{Run, any_live, change_of, drawn, noted, size_of, type_of};
use by_value::{Change, Named, Request};
use own_summary::On;
use space::answers::{NO_ADDRESS, Resized, number_of};
use totals::Summary;

// A run, and the summary that it keeps.
#[derive(Clone, Copy)]
struct Kept {
    run: Run,
    summary: Summary,
}

fn allocate(table: &mut [u64], kept: Kept) -> Kept {
    let run = kept.run;
    let given = kept.summary;
    let draw = drawn(run.draw);
    let space = run.space;
    let request = Request {
        code: type_of(draw),
        size: size_of(draw),
    };
    let done = own_summary::allocate(space, table, given, request);
    let summary = done.summary;
    let allocated = done.answered;
    let next = allocated.space;
    let answer = allocated.answer;
    Kept {
        run: noted(
            run,
            next,
            draw,
            number_of(answer),
            answer.unwrap_or(NO_ADDRESS),
        ),
        summary,
    }
}

fn release(table: &mut [u64], kept: Kept) -> Kept {
    let run = kept.run;
    let given = kept.summary;
    let draw = drawn(run.draw);
    let space = run.space;
    let Some(live) = any_live(table, space, draw) else {
        return kept;
    };
    let named = Named {
        address: live.address,
        size: live.size,
    };
    let done = own_summary::release(space, table, given, named);
    let summary = done.summary;
    let released = done.answered;
    let next = released.space;
    let answer = released.answer;
    Kept {
        run: noted(run, next, draw, number_of(answer), 0),
        summary,
    }
}

// What is kept behind an extend or a shorten.
fn resized(run: Run, done: On<Resized>, draw: u64) -> Kept {
    let summary = done.summary;
    let resized = done.answered;
    let next = resized.space;
    let answer = resized.answer;
    Kept {
        run: noted(run, next, draw, number_of(answer), 0),
        summary,
    }
}

fn shorten(table: &mut [u64], kept: Kept, draw: u64, change: Change) -> Kept {
    let run = kept.run;
    let given = kept.summary;
    let space = run.space;
    resized(run, own_summary::shorten(space, table, given, change), draw)
}

fn extend(table: &mut [u64], kept: Kept, draw: u64, change: Change) -> Kept {
    let run = kept.run;
    let given = kept.summary;
    let space = run.space;
    resized(run, own_summary::extend(space, table, given, change), draw)
}

// A live piece, found from any entry on, is shortened and extended.
fn there_and_back(table: &mut [u64], kept: Kept) -> Kept {
    let run = kept.run;
    let draw = drawn(run.draw);
    let space = run.space;
    let Some(live) = any_live(table, space, draw) else {
        return kept;
    };
    let change = Change {
        address: live.address,
        size: live.size,
        by: change_of(draw),
    };
    let shorter = shorten(table, kept, draw, change);
    let left = Change {
        size: change.size.wrapping_sub(change.by),
        ..change
    };
    extend(table, shorter, draw, left)
}

fn turn(table: &mut [u64], kept: Kept) -> Kept {
    let less = release(table, kept);
    let more = allocate(table, less);
    there_and_back(table, more)
}

fn turns_on(table: &mut [u64], start: Kept, turns: u64) -> Kept {
    let mut kept = start;
    for _ in 0..turns {
        kept = turn(table, kept);
    }
    kept
}

// The turns of a run that has filled its table.
pub fn turned(table: &mut [u64], start: Run, turns: u64) -> Run {
    let space = start.space;
    let fresh = own_summary::fresh(space, table, totals::no_totals());
    let summary = fresh.summary;
    let kept = turns_on(
        table,
        Kept {
            run: start,
            summary,
        },
        turns,
    );
    kept.run
}
