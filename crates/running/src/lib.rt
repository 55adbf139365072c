// The summary of a table, kept: compared with the table, and carried over a change of it.
#![tactic(auto)]

ghost use Rattle.std.specs.Prelude.{◌≡◌};
ghost use Rattle.pieces.specs.Words.{entries_in};
ghost use Rattle.sections.specs.Sections.{sections};
ghost use Rattle.running.specs.Replacing.{exchanged, Exchangeable, Beside, Replaces};
ghost use Rattle.totals.specs.Counting.{Countable};
ghost use Rattle.totals.specs.Summary.{largest, largest_of, summary_of, agreesb};

use pieces::Class;
use totals::{MANAGERS, Summary, largest_of, work_out};

// Whether a summary is that of the entries. The signed number is not looked at.
pub fn agrees(given: Summary, entries: &[u64]) -> bool
    requires { Countable entries.now }
    ensures { result ≡ agreesb given (entries_in entries.now) }
{
    let fresh = work_out(entries);
    (
        &given.sections,
        &given.bytes,
        &given.largest,
        &given.decades,
    ) == (
        &fresh.sections,
        &fresh.bytes,
        &fresh.largest,
        &fresh.decades,
    )
}

// One list of numbers over a change: those of what gave way are taken off, and those of what came are added.
fn replace(numbers: &mut [u64], was: &[u64], is: &[u64])
    requires { Exchangeable numbers.old was.now is.now }
    ensures { numbers.new ≡ exchanged numbers.old was.now is.now }
{
    for i in 0..numbers.len() {
        numbers[i] = numbers[i] - was[i] + is[i];
    }
}

// The largest section of a class over a change. Where the largest one goes and no larger one comes, it takes another look at the table.
fn largest_after(given: u64, was: u64, is: u64, class: Class, entries: &[u64]) -> u64
    requires { Beside given was is (largest (sections class (entries_in entries.now))) }
    ensures { result ≡ largest (sections class (entries_in entries.now)) }
{
    if was < given {
        return given.max(is);
    }
    if given <= is {
        return is;
    }
    largest_of(class, entries)
}

// The largest section of each manager over a change.
fn largest_each(given: Summary, was: Summary, is: Summary, entries: &[u64]) -> [u64; MANAGERS]
    requires { Replaces given was is entries.now }
    ensures { result ≡ largest_of (entries_in entries.now) }
{
    let given = given.largest;
    let was = was.largest;
    let is = is.largest;
    [
        largest_after(given[0], was[0], is[0], Class::SmallMetadata, entries),
        largest_after(given[1], was[1], is[1], Class::SmallRaw, entries),
        largest_after(given[2], was[2], is[2], Class::Large, entries),
    ]
}

// The summary after a change, found from the one before it: `was` is that of the entries that gave way, and `is` of those that came.
pub fn replaced(given: Summary, was: Summary, is: Summary, moved: i64, entries: &[u64]) -> Summary
    requires { Replaces given was is entries.now }
    ensures { result ≡ summary_of moved (entries_in entries.now) }
{
    let largest = largest_each(given, was, is, entries);
    let mut sections = given.sections;
    replace(&mut sections, &was.sections, &is.sections);
    let mut bytes = given.bytes;
    replace(&mut bytes, &was.bytes, &is.bytes);
    let mut decades = given.decades;
    replace(&mut decades, &was.decades, &is.decades);
    Summary {
        sections,
        bytes,
        largest,
        decades,
        moved,
    }
}
