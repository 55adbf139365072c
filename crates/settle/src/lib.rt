// How an accepted change ends: it is planned, its entries are counted, and only then the table is written.
#![tactic(auto)]

ghost use Rattle.std.specs.Prelude.{◌≡◌, ◌+◌, ◌≤◌, ◌^◌};
ghost use Rattle.change.specs.Change.{plan_without, plan_with};
ghost use Rattle.pieces.specs.Pieces.{behind};
ghost use Rattle.settle.specs.Settle.{if_room, SettleFits, CarryFits, carried_out};

use change::plan::Plan;
use pieces::{ENTRY_WORDS, Piece};

// The plan, if the table has room for its entries.
fn if_room(plan: Plan, table: &[u64]) -> Option<Plan>
    ensures { result ≡ if_room table.now plan }
{
    if table.len() / ENTRY_WORDS < plan.count {
        return None;
    }
    Some(plan)
}

// Without the live pieces among the entries from i up to j.
pub fn without(p: u64, end: u64, n: usize, i: usize, j: usize, table: &[u64]) -> Option<Plan>
    requires { SettleFits p end n i j table.now }
    ensures { result ≡ if_room table.now (plan_without p end n i j table.now) }
{
    let plan = change::plan::without(p, end, n, i, j, table);
    if_room(plan, table)
}

// With this live piece in place of those among the entries from i up to j.
pub fn with(
    p: u64,
    end: u64,
    n: usize,
    i: usize,
    j: usize,
    piece: Piece,
    table: &[u64],
) -> Option<Plan>
    requires { SettleFits p end n i j table.now × (behind piece + p ≤ 2 ^ 64) }
    ensures { result ≡ if_room table.now (plan_with p end n i j table.now piece) }
{
    let plan = change::plan::with(p, end, n, i, j, piece, table);
    if_room(plan, table)
}

// A plan that the table has room for is carried out.
pub fn carry_out(n: usize, table: &mut [u64], plan: Plan)
    requires { CarryFits n table.old plan }
    ensures { table.new ≡ carried_out n table.old plan }
{
    let from = plan.from;
    let to = plan.to;
    let new = plan.new;
    edit::splice::splice(table, n, from, to, new, plan.count);
}
