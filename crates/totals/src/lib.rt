// The running summary for the inspection sheet, worked out of the entries of a table.
#![tactic(auto)]

ghost use Rattle.std.specs.Prelude.{◌≡◌, ◌-◌, ◌*◌, ◌^◌, ◌≤◌, ◌<◌, pos, length};
ghost use Rattle.pieces.specs.Words.{entries_in};
ghost use Rattle.sections.specs.Sections.{sections};
ghost use Rattle.totals.specs.Counting.{Countable};
ghost use Rattle.totals.specs.Summary.{largest, decade_of, summary_of, no_totals, moved_by};

use pieces::{Class, kind};

pub const MANAGERS: usize = 3;

pub const DECADES: usize = 19;

const LAST_DECADE: usize = DECADES - 1;

// The running summary. Managers 1, 2, 3 stand at 0, 1, 2: small metadata, small raw, large.
#[derive(Clone, Copy)]
pub struct Summary {
    // how many free sections a manager has
    pub sections: [u64; MANAGERS],
    // their bytes
    pub bytes: [u64; MANAGERS],
    // the largest of them, 0 where there is none
    pub largest: [u64; MANAGERS],
    // over all managers: how many sections are under 10 bytes, from 10 to 99, .., from 10^18 upward
    pub decades: [u64; DECADES],
    // by how much the last accepted call moved the end of file
    pub moved: i64,
}

// Which decade counts a section of so many bytes. Most sections are less than a page, so the first edges are tested one by one: with `ilog10` for each the
// walk over 1,000 sections took twice as long.
pub fn decade_of(size: u64) -> usize
    ensures { result ≡ decade_of size }
{
    match size {
        0..=9 => 0,
        10..=99 => 1,
        100..=999 => 2,
        _ => (size.ilog10() as usize).min(LAST_DECADE),
    }
}

// The summary of the entries, afresh: no call has moved the end.
pub fn work_out(entries: &[u64]) -> Summary
    requires { Countable entries.now }
    ensures { result ≡ summary_of (pos 0) (entries_in entries.now) }
{
    let mut sections = [0u64; MANAGERS];
    let mut bytes = [0u64; MANAGERS];
    let mut largest = [0u64; MANAGERS];
    let mut decades = [0u64; DECADES];
    // These are the numbers of the entries before i.
    for i in 0..pieces::count_in(entries) {
        let entry = pieces::words_at(entries, i);
        if kind::is_free(entry.kind) {
            let manager = kind::manager_of(entry.kind);
            let decade = decade_of(entry.size);
            sections[manager] += 1;
            bytes[manager] += entry.size;
            largest[manager] = largest[manager].max(entry.size);
            decades[decade] += 1;
        }
    }
    Summary {
        sections,
        bytes,
        largest,
        decades,
        moved: 0,
    }
}

// The largest free section of a class, 0 where there is none.
pub fn largest_of(class: Class, entries: &[u64]) -> u64
    ensures { result ≡ largest (sections class (entries_in entries.now)) }
{
    let mut found: u64 = 0;
    for i in 0..pieces::count_in(entries) {
        let entry = pieces::words_at(entries, i);
        if kind::is_free_of(entry.kind, class) {
            found = found.max(entry.size);
        }
    }
    found
}

// The summary of no entries, where no call has moved the end.
pub fn no_totals() -> Summary
    ensures { result ≡ no_totals }
{
    Summary {
        sections: [0; MANAGERS],
        bytes: [0; MANAGERS],
        largest: [0; MANAGERS],
        decades: [0; DECADES],
        moved: 0,
    }
}

// By how much the end moved, from one to the other.
pub fn moved_by(old: u64, new: u64) -> i64
    requires { (old < 2 ^ 63) × (new < 2 ^ 63) }
    ensures { result ≡ moved_by old new }
{
    if old <= new {
        return (new - old) as i64;
    }
    -((old - new) as i64)
}
