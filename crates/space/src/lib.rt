// The file space manager's calls. The state goes in by value and comes back with the answer; the table is lent. No call asks anything of its
// caller: any four numbers, any slice and any arguments get an answer. A refused call hands the state back as it came and writes no word.
//
// Each call that changes a table is the soundness test; then a half that decides and writes nothing, as `decide_allocate`, and hands back the plan of
// the change or the refusal; and then, of a plan, `carry_out`. Code that has tested a table once, or looks at the entries that a change replaces
// before it is written, calls the halves.
#![tactic(auto)]

pub mod answers;
pub mod give;
pub mod list;
pub mod open;
pub mod place;

ghost use Rattle.std.specs.Prelude.{◌≡◌};
ghost use Rattle.pieces.specs.Words.{words_of, entries_in};
ghost use Rattle.settle.specs.Settle.{CarryFits};
ghost use Rattle.space.specs.Halves.{carry_said, carried};
ghost use Rattle.space.specs.Outcomes.{soundb, SoundSpace, entries_of};

use change::plan::Plan;

// The state: page size, address limit, end of the allocated file, count of entries.
#[derive(Clone, Copy, PartialEq, Eq)]
pub struct Space {
    pub page: u64,
    pub limit: u64,
    pub end: u64,
    pub count: u64,
}

impl Space {
    // Whether the state and the table are sound together.
    pub fn is_sound(self, table: &[u64]) -> bool
        ensures { result ≡ soundb self table.now }
    {
        sound::is_sound(self.page, self.limit, self.end, self.count, table)
    }

    // The words of the entries of a sound table.
    pub fn entries(self, table: &[u64]) -> &[u64]
        requires { SoundSpace self table.now }
        ensures words { result.now ≡ words_of table.now 0 self.count }
        ensures entries { entries_in result.now ≡ entries_of self table.now }
    {
        pieces::words_of(table, 0, self.count as usize)
    }

    // The change that was decided on is written: every word of the table, and the state with the new end and count.
    pub fn carry_out(self, table: &mut [u64], plan: Plan) -> Space
        requires { CarryFits self.count table.old plan }
        ensures { carry_said result table.new ≡ carried self table.old plan }
    {
        let n = self.count as usize;
        settle::carry_out(n, table, plan);
        Space {
            end: plan.end,
            count: plan.count as u64,
            ..self
        }
    }
}
