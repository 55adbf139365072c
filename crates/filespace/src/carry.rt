// What a run carries from line to line.
ghost use Rattle.std.specs.Prelude.{◌≡◌, ◌≤◌, Some};
ghost use Rattle.std.specs.Option.{unwrap_or};
ghost use Rattle.filespace.specs.Lent.{line_bytes, table_words};

use space::Space;
use std::io::Stdout;
use totals::Summary;

#[derive(Clone, Copy)]
pub struct Run {
    pub stdout: Stdout,
    // The state that the next call gets, how many words the lent table has, and the summary that is lent beside it.
    pub space: Space,
    pub used: usize,
    pub summary: Summary,
    // The number of the line, and how many bytes it has so far; none, where it has more than a line may have.
    pub line: u64,
    pub filled: Option<usize>,
    ghost lent: { used ≤ table_words },
    ghost kept: { unwrap_or filled 0 ≤ line_bytes },
}

impl Run {
    // Four zeros over a table of no words, and a summary of zeros.
    pub fn at_first(stdout: Stdout) -> Run {
        Run {
            stdout,
            space: Space {
                page: 0,
                limit: 0,
                end: 0,
                count: 0,
            },
            used: 0,
            summary: totals::no_totals(),
            line: 1,
            filled: Some(0),
        }
    }

    pub fn next_line(mut self) -> Run
        ensures { (result.used ≡ self.used) × (result.filled ≡ Some 0) }
    {
        self.line = self.line.wrapping_add(1);
        self.filled = Some(0);
        self
    }

    // The lent table has so many words, and the next call gets this state.
    pub(crate) fn lent(mut self, space: Space, used: usize) -> Run
        requires { used ≤ table_words }
        ensures { (result.used ≡ used) × (result.filled ≡ self.filled) }
    {
        self.space = space;
        self.used = used;
        self
    }

    // A call left this state and this summary, for the next one.
    pub fn after(mut self, space: Space, summary: Summary) -> Run
        ensures { (result.used ≡ self.used) × (result.filled ≡ self.filled) }
    {
        self.space = space;
        self.summary = summary;
        self
    }
}
