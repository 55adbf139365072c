// A table in words, an entry to a line.
ghost use Rattle.std.specs.Prelude.{◌+◌, ◌*◌, ◌≤◌, length};
ghost use Rattle.pieces.specs.Words.{entry_words};

use std::io::Stdout;

// What document 01 calls a kind, 1 to 6.
fn name_of(kind: u64) -> &'static str {
    match kind {
        1 => "live small metadata",
        2 => "live small raw",
        3 => "live large",
        4 => "free small metadata",
        5 => "free small raw",
        6 => "free large",
        _ => "no kind",
    }
}

fn say_entry(stdout: Stdout, table: &[u64], i: usize)
    requires { (i + 1) * entry_words ≤ length table.now }
{
    let entry = pieces::words_at(table, i);
    let _ = println!(stdout;
        "    at {} size {} {}",
        entry.address,
        entry.size,
        name_of(entry.kind)
    );
}

// The first n entries, or as many as there are.
pub fn say_table(stdout: Stdout, table: &[u64], n: u64) {
    for i in 0..pieces::entries_within(n, table.len()) {
        say_entry(stdout, table, i);
    }
}
