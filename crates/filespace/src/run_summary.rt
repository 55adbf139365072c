// The summary of a run: set, and worked out afresh.
ghost use Rattle.std.specs.Prelude.{◌≡◌};

use crate::TABLE_WORDS;
use crate::carry::Run;
use say::report::Verdict;
use space::answers::number_of;
use totals::{DECADES, MANAGERS, Summary};

// Of each manager the number of its sections, their bytes and the largest.
const MANAGER_NUMBERS: usize = 3;

// The numbers of a summary but the signed one: those of each manager, and from a place on the counts by decades.
const COUNTS_AT: usize = MANAGER_NUMBERS * MANAGERS;

pub const TOTALS: usize = COUNTS_AT + DECADES;

fn summary_of(totals: &[u64; TOTALS], moved: i64) -> Summary {
    let mut decades = [0u64; DECADES];
    decades.copy_from_slice(&totals[COUNTS_AT..]);
    Summary {
        sections: [totals[0], totals[3], totals[6]],
        bytes: [totals[1], totals[4], totals[7]],
        largest: [totals[2], totals[5], totals[8]],
        decades,
        moved,
    }
}

pub fn set(run: Run, totals: &[u64; TOTALS], moved: i64) -> Run
    ensures { result.used ≡ run.used }
{
    let _ = println!(run.stdout; "set");
    run.after(run.space, summary_of(totals, moved))
}

// The state stays as it is, so the answer does not say it.
pub fn fresh(run: Run, table: &[u64; TABLE_WORDS]) -> Run
    ensures { result.used ≡ run.used }
{
    let used = run.used;
    let r = own_summary::fresh(run.space, &table[..used], run.summary);
    let _ = println!(run.stdout; "{}", Verdict(number_of(r.answered.answer)));
    run.after(run.space, r.summary)
}
