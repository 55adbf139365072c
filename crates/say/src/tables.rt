// The lent table, for a person and word by word.
ghost use Rattle.std.specs.Prelude.{◌+◌, ◌*◌, ◌≤◌, length};
ghost use Rattle.pieces.specs.Words.{entry_words};

use crate::Words;
use space::Space;
use std::io::Stdout;

// A kind in words. `show::entry` has the same names: neither crate stands on the other, and `pieces`, below both, is in the C library, which has no texts.
fn name_of(kind: u64) -> &'static str {
    match kind {
        1 => "live small metadata",
        2 => "live small raw",
        3 => "live large",
        4 => "free small metadata",
        5 => "free small raw",
        6 => "free large",
        _ => "no kind",
    }
}

// An entry, and the page of its address, where there are pages.
fn say_entry(stdout: Stdout, page: u64, table: &[u64], i: usize)
    requires { (i + 1) * entry_words ≤ length table.now }
{
    let pieces::Words {
        address,
        size,
        kind,
    } = pieces::words_at(table, i);
    let name = name_of(kind);
    let _ = if page == 0 {
        println!(stdout; "{address:>12} {size:>12}  {name:<19}  no page")
    } else {
        println!(stdout;
            "{address:>12} {size:>12}  {name:<19}  page {}",
            address / page
        )
    };
}

// The table of a space.
pub fn table(stdout: Stdout, space: Space, table: &[u64]) {
    for i in 0..pieces::entries_within(space.count, table.len()) {
        say_entry(stdout, space.page, table, i);
    }
    let _ = println!(stdout; "{} entries, end {}", space.count, space.end);
}

pub fn show_words(stdout: Stdout, table: &[u64]) {
    let _ = println!(stdout; "words:{}", Words(table));
}
