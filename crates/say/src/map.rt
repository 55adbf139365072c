// The file as a picture: a row for each page, and marks for what its bytes belong to.
ghost use Rattle.std.specs.Prelude.{◌+◌, ◌^◌, ◌<◌, ◌≤◌};
ghost use Rattle.say.specs.Rows.{Rows};

use pieces::ENTRY_WORDS;
use space::Space;
use std::io::Stdout;

// A row has at most so many marks, and a picture so many rows.
const MARKS: u64 = 64;

const ROWS: u64 = 64;

// What is drawn: the table of a file, with its pages and its end.
#[derive(Clone, Copy)]
struct Picture<'a> {
    stdout: Stdout,
    table: &'a [u64],
    page: u64,
    end: u64,
    ghost drawn: { Rows page end },
}

fn mark_of(kind: u64) -> u8 {
    match kind {
        1 => b'M',
        2 => b'R',
        3 => b'L',
        4 => b'm',
        5 => b'r',
        6 => b'.',
        _ => b'?',
    }
}

// Whether an entry holds the byte at this address.
fn covers(start: u64, size: u64, address: u64) -> bool {
    address.checked_sub(start).is_some_and(|at| at < size)
}

// The mark of the entry that holds the byte at this address.
fn mark_at(table: &[u64], address: u64) -> u8 {
    for i in 0..table.len() / ENTRY_WORDS {
        let entry = pieces::words_at(table, i);
        if covers(entry.address, entry.size, address) {
            return mark_of(entry.kind);
        }
    }
    b'?'
}

impl Picture<'_> {
    // How many bytes a mark stands for.
    fn step(self) -> u64
        ensures { (0 < result) × (result ≤ self.entry.page) }
    {
        self.page.div_ceil(MARKS)
    }

    // The marks of the page that starts here.
    fn say_marks(self, start: u64)
        requires { start < self.end }
    {
        let stop = start + self.page;
        for address in (start..stop).step_by(self.step() as usize) {
            let _ = self.stdout.write_all(&[mark_at(self.table, address)]);
        }
    }

    fn say_row(self, row: u64, start: u64)
        requires { start < self.end }
    {
        let stdout = self.stdout;
        let _ = print!(stdout; "page {row:>8} |");
        self.say_marks(start);
        let _ = println!(stdout; "|");
    }

    // The rows, and how many pages have none.
    fn say_rows(self) {
        let stdout = self.stdout;
        let mut start: u64 = 0;
        for row in 0..ROWS {
            if self.end <= start {
                return;
            }
            self.say_row(row, start);
            start += self.page;
        }
        if start < self.end {
            let _ = println!(stdout; "and {} more pages", (self.end - start) / self.page);
        }
    }

    fn say_legend(self) {
        let stdout = self.stdout;
        let step = self.step();
        let _ = println!(stdout;
            "pages of {} bytes, end {}; a mark for every {step} bytes",
            self.page, self.end
        );
        let _ = println!(stdout;
            "live: M small metadata, R small raw, L large; free: m small metadata, r small raw, . large"
        );
    }
}

// The table of a space.
pub fn map(stdout: Stdout, space: Space, table: &[u64]) {
    if !space.is_sound(table) {
        let _ = println!(stdout; "no map: state and table are not sound together");
        return;
    }
    let used = pieces::entries_within(space.count, table.len()) * ENTRY_WORDS;
    let picture = Picture {
        stdout,
        table: &table[..used],
        page: space.page,
        end: space.end,
    };
    picture.say_rows();
    picture.say_legend();
}
