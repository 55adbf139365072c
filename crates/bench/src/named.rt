// Names in one part of the table: what finding a piece costs alone, and what a release and an allocation cost, by where the named piece lies. A
// part is an eighth of the entries, the first, the middle or the last ones. A name is drawn as `any_live` draws it, but from the part.
//
// Finding alone is a way that finds each name less a way that only draws it. Both note a name with its entry, the one that was found or drawn, so
// they write the same. The next draw takes that entry in, so that a finding is not begun before the last one has ended.
ghost use Rattle.std.specs.Prelude.{◌+◌, ◌*◌, ◌<◌, ◌≤◌, length};
ghost use Rattle.find.specs.Walk.{Rising};
ghost use Rattle.pieces.specs.Words.{entry_words, count_in};

use crate::{Live, Run, allocate, any_of, drawn, live_from_or, release_named, summed};

// The parts by their numbers.
#[derive(Clone, Copy)]
pub enum Part {
    Front,
    Middle,
    End,
}

impl From<u64> for Part {
    fn from(number: u64) -> Part {
        match number {
            0 => Part::Front,
            1 => Part::Middle,
            _ => Part::End,
        }
    }
}

// An eighth of n entries, and at least one.
fn eighth_of(n: usize) -> usize
    requires { 0 < n }
    ensures { (0 < result) × (result ≤ n) }
{
    (n / 8).max(1)
}

// The first entry of the part, which has an eighth of n.
fn first_of(part: Part, eighth: usize, n: usize) -> usize
    requires { eighth ≤ n }
    ensures { result + eighth ≤ n }
{
    let behind = n - eighth;
    match part {
        Part::Front => 0,
        Part::Middle => behind / 2,
        Part::End => behind,
    }
}

// A live piece, found from any entry of the part on, or from its first.
fn live_in(table: &[u64], n: usize, part: Part, draw: u64) -> Option<Live>
    requires { n * entry_words ≤ length table.now }
{
    if n == 0 {
        return None;
    }
    let eighth = eighth_of(n);
    let first = first_of(part, eighth, n);
    live_from_or(table, first + any_of(eighth, draw), first, n)
}

// ---- ways 2 and 3: names are drawn, or drawn and found

// What is kept behind a name: its address, and its entry.
fn named(run: Run, draw: u64, address: u64, i: usize) -> Run {
    let space = run.space;
    let entry = i as u64;
    Run {
        space,
        draw: draw.wrapping_add(entry),
        sum: summed(summed(run.sum, address), entry),
        accepted: run.accepted.wrapping_add(1),
        entries: run.entries.wrapping_add(space.count),
    }
}

// A name is drawn, and found if that is asked for.
fn name(entries: &[u64], run: Run, part: Part, finding: bool) -> Run
    requires { Rising entries.now (count_in entries.now) }
{
    let draw = drawn(run.draw);
    let Some(live) = live_in(entries, pieces::count_in(entries), part, draw) else {
        return run;
    };
    if !finding {
        return named(run, draw, live.address, live.entry);
    }
    let Ok((at, _)) = find::find(live.address, live.size, entries) else {
        return run;
    };
    named(run, draw, live.address, at)
}

fn names_on(entries: &[u64], start: Run, part: Part, finding: bool, turns: u64) -> Run
    requires { Rising entries.now (count_in entries.now) }
{
    let mut run = start;
    for _ in 0..turns {
        run = name(entries, run, part, finding);
    }
    run
}

// So many names, in a table that stays as it is. In one that is not sound nothing is drawn.
pub fn names(table: &[u64], start: Run, part: Part, finding: bool, turns: u64) -> Run {
    let space = start.space;
    if !space.is_sound(table) {
        return start;
    }
    names_on(space.entries(table), start, part, finding, turns)
}

// ---- way 4: a release and an allocation

fn release(table: &mut [u64], run: Run, part: Part) -> Run {
    let draw = drawn(run.draw);
    let space = run.space;
    let n = pieces::entries_within(space.count, table.len());
    let Some(live) = live_in(table, n, part, draw) else {
        return run;
    };
    release_named(table, run, draw, live.address, live.size)
}

fn turn(table: &mut [u64], run: Run, part: Part) -> Run {
    let less = release(table, run, part);
    allocate(table, less)
}

// So many turns, each of which releases a piece of the part and allocates another one.
pub fn turned(table: &mut [u64], start: Run, part: Part, turns: u64) -> Run {
    let mut run = start;
    for _ in 0..turns {
        run = turn(table, run, part);
    }
    run
}
