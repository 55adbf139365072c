// A plan for a change.
ghost use Rattle.std.specs.Prelude.{◌≡◌, ◌+◌, ◌-◌, ◌*◌, ◌≤◌, ◌<◌, ◌^◌, length};
ghost use Rattle.pieces.specs.Pieces.{behind};
ghost use Rattle.pieces.specs.Words.{entry_words, entries};
ghost use Rattle.change.specs.Change.{closing_gap, end_behind, plan_of, plan_without, plan_with, PlanFits};

use crate::around;
use edit::gap::{Gap, gap_of, tail_of};
use edit::new::{New, count_new};
use pieces::{Class, Piece};

// The entries from `from` up to `to` are to be replaced by new ones. Then the file ends at `end`, and the table has `count` entries.
#[derive(Clone, Copy)]
pub struct Plan {
    pub from: usize,
    pub to: usize,
    pub new: New,
    pub end: u64,
    pub count: usize,
}

// The gap behind a piece of class k that ends at a, up to entry `to` or to the page's end.
fn close(p: u64, k: Class, a: u64, to: usize, n: usize, table: &[u64]) -> Gap
    requires { ((0 < p) × (a + p ≤ 2 ^ 64)) × (n * entry_words ≤ length table.now) }
    ensures { result ≡ closing_gap p k a (entries table.now to (n - to)) }
{
    if n <= to {
        return tail_of(p, k, a);
    }
    let next = pieces::piece_at(table, to);
    gap_of(p, k, a, next.address, next.status.class())
}

// Where the file ends if the last piece before entry `to` ends at a.
#[tactic(auto, unfolding(crate::specs::Change::end_behind))]
fn end_behind(p: u64, end: u64, a: u64, to: usize, n: usize) -> u64
    requires { (0 < p) × (a + p ≤ 2 ^ 64) }
    ensures { result ≡ end_behind p end a to n }
{
    if to < n { end } else { pages::round_up(p, a) }
}

// The plan: the new entries, up to a piece that ends at a and what closes behind it, go between `from` and `to`.
fn planned(p: u64, end: u64, n: usize, from: usize, to: usize, new: New, a: u64) -> Plan
    requires { (((0 < p) × (a + p ≤ 2 ^ 64)) × ((from ≤ to) × (to ≤ n))) × (n < 2 ^ 32) }
    ensures { result ≡ plan_of p end n from to new a }
{
    let count = count_new(new);
    Plan {
        from,
        to,
        new,
        end: end_behind(p, end, a, to, n),
        count: from + count + (n - to),
    }
}

// Without the live pieces among the entries from i up to j.
pub fn without(p: u64, end: u64, n: usize, i: usize, j: usize, table: &[u64]) -> Plan
    requires { PlanFits p end n i j table.now }
    ensures { result ≡ plan_without p end n i j table.now }
{
    let former = around::live_before(i, table);
    let class = former.class;
    let to = around::live_from(j, n, table);
    let new = New::Without(close(p, class, former.end, to, n, table));
    planned(p, end, n, former.from, to, new, former.end)
}

// With this live piece in place of those among the entries from i up to j.
pub fn with(p: u64, end: u64, n: usize, i: usize, j: usize, piece: Piece, table: &[u64]) -> Plan
    requires { PlanFits p end n i j table.now × (behind piece + p ≤ 2 ^ 64) }
    ensures { result ≡ plan_with p end n i j table.now piece }
{
    let former = around::live_before(i, table);
    let before = former.class;
    let to = around::live_from(j, n, table);
    let class = piece.status.class();
    let a = piece.address + piece.size;
    let front = gap_of(p, before, former.end, piece.address, class);
    let new = New::With(front, piece, close(p, class, a, to, n, table));
    planned(p, end, n, former.from, to, new, a)
}
