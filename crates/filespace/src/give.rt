// The calls on a space, each answered in one line. All but the listing get the run's summary, and leave it to the next call.
ghost use Rattle.std.specs.Prelude.{◌≡◌, ◌≤◌};
ghost use Rattle.filespace.specs.Lent.{table_words};

use crate::calls::Call;
use crate::carry::Run;
use crate::wrong::Wrong;
use crate::{MOST_ENTRIES, MOST_ROOM, TABLE_WORDS};
use by_value::{Change, Named, Pages, Request};
use own_summary::On;
use pieces::ENTRY_WORDS;
use say::report;
use say::report::Verdict;
use sections::PAIR_WORDS;
use space::Space;
use space::answers::{Answered, Opened, Refusal};
use std::io::Stdout;
use totals::Summary;

// An opening is answered, and the next call gets what it left.
fn told_opened(run: Run, used: usize, r: On<Opened>) -> Run
    requires { used ≤ table_words }
    ensures { result.used ≡ used }
{
    let done = r.answered;
    report::answered(run.stdout, done);
    run.lent(done.space, used).after(done.space, r.summary)
}

// The opening that the call is.
fn opened(call: Call, args: &[u64; TABLE_WORDS], table: &mut [u64], given: Summary) -> On<Opened> {
    match call {
        Call::Default => own_summary::open_default(table, given),
        _ => {
            let pages = Pages {
                page: args[0],
                limit: args[1],
            };
            own_summary::open(pages, table, given)
        }
    }
}

// How many entries an opening names.
fn entries_named(call: Call, args: &[u64; TABLE_WORDS]) -> u64 {
    match call {
        Call::Default => args[0],
        _ => args[2],
    }
}

// The table is lent anew: its words are 0.
pub fn open(
    run: Run,
    call: Call,
    args: &[u64; TABLE_WORDS],
    table: &mut [u64; TABLE_WORDS],
) -> Result<Run, Wrong> {
    let entries = entries_named(call, args);
    if (MOST_ENTRIES as u64) < entries {
        return Err(Wrong::TooMany);
    }
    table.fill(0);
    let used = entries as usize * ENTRY_WORDS;
    let r = opened(call, args, &mut table[..used], run.summary);
    Ok(told_opened(run, used, r))
}

// The piece that a call names, and by how much it changes.
fn change_of(args: &[u64; TABLE_WORDS]) -> Change {
    Change {
        address: args[0],
        size: args[1],
        by: args[2],
    }
}

fn allocate(run: Run, args: &[u64; TABLE_WORDS], table: &mut [u64]) -> Run
    ensures { result.used ≡ run.used }
{
    let request = Request {
        code: args[0],
        size: args[1],
    };
    let r = own_summary::allocate(run.space, table, run.summary, request);
    let done = r.answered;
    report::allocated(run.stdout, done);
    run.after(done.space, r.summary)
}

fn release(run: Run, args: &[u64; TABLE_WORDS], table: &mut [u64]) -> Run
    ensures { result.used ≡ run.used }
{
    let named = Named {
        address: args[0],
        size: args[1],
    };
    told(
        run,
        own_summary::release(run.space, table, run.summary, named),
    )
}

// A call is answered, and the next one gets what it left.
fn told<T: Copy, E: Refusal>(run: Run, r: On<Answered<T, E>>) -> Run
    ensures { result.used ≡ run.used }
{
    let done = r.answered;
    report::answered(run.stdout, done);
    run.after(done.space, r.summary)
}

// The call, on the lent table with the summary.
pub fn change(
    run: Run,
    call: Call,
    args: &[u64; TABLE_WORDS],
    table: &mut [u64; TABLE_WORDS],
) -> Run
    ensures { result.used ≡ run.used }
{
    let used = run.used;
    let table = &mut table[..used];
    let given = run.summary;
    match call {
        Call::Allocate => allocate(run, args, table),
        Call::Release => release(run, args, table),
        Call::Extend => told(
            run,
            own_summary::extend(run.space, table, given, change_of(args)),
        ),
        _ => told(
            run,
            own_summary::shorten(run.space, table, given, change_of(args)),
        ),
    }
}

// The sections that a listing wrote: address and size of each.
fn say_sections(stdout: Stdout, count: u64, room: &[u64; MOST_ROOM]) {
    let _ = print!(stdout; "{count} sections:");
    for pair in room.chunks_exact(PAIR_WORDS).take(count as usize) {
        let _ = print!(stdout; " {}+{}", pair[0], pair[1]);
    }
}

pub fn list(run: Run, args: &[u64; TABLE_WORDS], table: &[u64; TABLE_WORDS]) -> Result<Run, Wrong> {
    let stdout = run.stdout;
    let mut room = [0u64; MOST_ROOM];
    if (MOST_ROOM as u64) < args[1] {
        return Err(Wrong::TooMany);
    }
    let wanted = args[1] as usize;
    let used = run.used;
    let space = run.space;
    let r = space.list(&table[..used], args[0], &mut room[..wanted]);
    match r.answer {
        Ok(count) => say_sections(stdout, count, &room),
        Err(refusal) => {
            let _ = print!(stdout; "{}", Verdict(refusal.number()));
        }
    }
    let _ = println!(stdout);
    Ok(run)
}

pub fn state(run: Run, args: &[u64; TABLE_WORDS]) -> Run
    ensures { result.used ≡ run.used }
{
    let space = Space {
        page: args[0],
        limit: args[1],
        end: args[2],
        count: args[3],
    };
    let _ = println!(run.stdout; "set");
    run.lent(space, run.used)
}

pub fn words(
    run: Run,
    count: usize,
    args: &[u64; TABLE_WORDS],
    table: &mut [u64; TABLE_WORDS],
) -> Run
    requires { count ≤ table_words }
{
    table[..count].copy_from_slice(&args[..count]);
    let _ = println!(run.stdout; "set");
    run.lent(run.space, count)
}
