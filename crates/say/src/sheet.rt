// The summary, number by number, and as an inspection sheet: what each manager has free, the sections by their size with a bar for each decade, and
// the last move of the end. A sheet has the same lines whatever is free, so that two can be laid side by side, and 75 columns.
ghost use Rattle.std.specs.Prelude.{◌<◌};

use crate::Words;
use std::io::Stdout;
use totals::{DECADES, MANAGERS, Summary};

// A bar has at most so many marks.
const MARKS: u64 = 40;

const MANAGER_NAMES: [&str; MANAGERS] = ["small metadata", "small raw", "large"];

const DECADE_NAMES: [&str; DECADES] = [
    "under 10",
    "10 to 99",
    "100 to 999",
    "1000 to 9999",
    "10000 to 99999",
    "100000 to 999999",
    "10^6 to 10^7 - 1",
    "10^7 to 10^8 - 1",
    "10^8 to 10^9 - 1",
    "10^9 to 10^10 - 1",
    "10^10 to 10^11 - 1",
    "10^11 to 10^12 - 1",
    "10^12 to 10^13 - 1",
    "10^13 to 10^14 - 1",
    "10^14 to 10^15 - 1",
    "10^15 to 10^16 - 1",
    "10^16 to 10^17 - 1",
    "10^17 to 10^18 - 1",
    "10^18 upward",
];

fn say_managers(stdout: Stdout, summary: &Summary) {
    let _ = println!(stdout;
        "Free sections              number                bytes              largest"
    );
    for i in 0..MANAGERS {
        let name = MANAGER_NAMES[i];
        let sections = summary.sections[i];
        let bytes = summary.bytes[i];
        let largest = summary.largest[i];
        let _ = println!(stdout; "  {name:<19}{sections:>12} {bytes:>20} {largest:>20}");
    }
}

// The largest of the counts.
fn most_of(counts: &[u64]) -> u64 {
    counts.iter().copied().max().unwrap_or(0)
}

// How many sections a mark stands for, so that the longest bar has room: all bars have the same scale.
fn scale_of(most: u64) -> u64
    ensures { 0 < result }
{
    most.div_ceil(MARKS).max(1)
}

fn say_scale(stdout: Stdout, scale: u64) {
    let _ = if scale == 1 {
        println!(stdout; "Free sections by size in bytes; # is one section")
    } else {
        println!(stdout; "Free sections by size in bytes; # is up to {scale} sections")
    };
}

// A count, and as many marks as hold it: one for each `scale`, and one for what is over.
fn say_decade(stdout: Stdout, name: &str, count: u64, scale: u64)
    requires { 0 < scale }
{
    let marks = count.div_ceil(scale).min(MARKS) as usize;
    let _ = if marks == 0 {
        println!(stdout; "  {name:<19}{count:>12}")
    } else {
        println!(stdout; "  {name:<19}{count:>12}  {:#<marks$}", "")
    };
}

fn say_decades(stdout: Stdout, counts: &[u64; DECADES], scale: u64)
    requires { 0 < scale }
{
    for i in 0..DECADES {
        say_decade(stdout, DECADE_NAMES[i], counts[i], scale);
    }
}

pub fn sheet(stdout: Stdout, summary: Summary) {
    let decades = summary.decades;
    let scale = scale_of(most_of(&decades));
    say_managers(stdout, &summary);
    say_scale(stdout, scale);
    say_decades(stdout, &decades, scale);
    let moved = summary.moved;
    let _ = println!(stdout; "The last accepted call moved the end of file by {moved} bytes.");
}

// Every number: number, bytes and largest of each manager, the counts, and the signed number.
pub fn numbers(stdout: Stdout, summary: Summary) {
    let Summary {
        sections,
        bytes,
        largest,
        decades,
        moved,
    } = summary;
    let managers = [
        sections[0],
        bytes[0],
        largest[0],
        sections[1],
        bytes[1],
        largest[1],
        sections[2],
        bytes[2],
        largest[2],
    ];
    let _ = println!(stdout; "summary:{}{} {moved}", Words(&managers), Words(&decades));
}
