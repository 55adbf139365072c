// The free bytes between two live pieces, as numbers: they change their class at page borders.
//
//     a          lo                hi         b
//     |  of k    |   free large    |   of m   |
//
// No list of entries is built: they are counted, and laid into the table, from these numbers.
ghost use Rattle.std.specs.Prelude.{◌≡◌, ◌+◌, ◌*◌, ◌≤◌, ◌<◌, ◌^◌, min, max, length};
ghost use Rattle.pages.specs.Pages.{down, up};
ghost use Rattle.pieces.specs.Words.{entry_words};
ghost use Rattle.table.specs.Fill.{free, lo, hi};
ghost use Rattle.edit.specs.New.{gap_of, tail_of, gap_entries, free_count, Put};

use pages::{round_down, round_up};
use pieces::{Class, Piece, Status, put};

#[derive(Clone, Copy)]
pub struct Gap {
    pub a: u64,
    pub lo: u64,
    pub hi: u64,
    pub b: u64,
    pub k: Class,
    pub m: Class,
}

// How far the free bytes from a to b, behind a live piece of class k, are of class k.
#[tactic(auto, unfolding(table::specs::Fill::lo))]
fn lo(p: u64, k: Class, a: u64, b: u64) -> u64
    requires { (0 < p) × (a + p ≤ 2 ^ 64) }
    ensures { result ≡ lo p k a b }
{
    match k {
        Class::SmallMetadata | Class::SmallRaw => b.min(round_up(p, a)),
        Class::Large => a,
    }
}

// From where the free bytes from l to b, before a live piece of class m, are of class m.
#[tactic(auto, unfolding(table::specs::Fill::hi))]
fn hi(p: u64, l: u64, b: u64, m: Class) -> u64
    requires { 0 < p }
    ensures { result ≡ hi p l b m }
{
    match m {
        Class::SmallMetadata | Class::SmallRaw => l.max(round_down(p, b)),
        Class::Large => b,
    }
}

// Between a live piece of class k that ends at a and one of class m that starts at b.
#[tactic(auto, unfolding(crate::specs::New::gap_of))]
pub fn gap_of(p: u64, k: Class, a: u64, b: u64, m: Class) -> Gap
    requires { (0 < p) × (a + p ≤ 2 ^ 64) }
    ensures { result ≡ gap_of p k a b m }
{
    let lo = lo(p, k, a, b);
    let hi = hi(p, lo, b, m);
    Gap { a, lo, hi, b, k, m }
}

// Behind the last live piece, of class k, that ends at a: all is of class k, to the page's end.
#[tactic(auto, unfolding(crate::specs::New::tail_of))]
pub fn tail_of(p: u64, k: Class, a: u64) -> Gap
    requires { (0 < p) × (a + p ≤ 2 ^ 64) }
    ensures { result ≡ tail_of p k a }
{
    let b = round_up(p, a);
    Gap {
        a,
        lo: b,
        hi: b,
        b,
        k,
        m: k,
    }
}

// One entry from a to b, if there is a byte between them.
#[tactic(auto, unfolding(crate::specs::New::free_count))]
fn count_free(a: u64, b: u64) -> usize
    ensures { result ≡ free_count a b }
{
    usize::from(a < b)
}

// How many entries a gap has.
pub fn count_gap(gap: Gap) -> usize
    ensures { result ≡ length (gap_entries gap) }
{
    count_free(gap.a, gap.lo) + count_free(gap.lo, gap.hi) + count_free(gap.hi, gap.b)
}

// The free entry from a to b, if there is a byte between them, becomes entry i. Answers the entry behind it.
fn put_free(table: &mut [u64], i: usize, class: Class, a: u64, b: u64) -> usize
    requires { (i + free_count a b) * entry_words ≤ length table.old }
    ensures { Put table.old i (free class a b) result table.new }
{
    if b <= a {
        return i;
    }
    let piece = Piece {
        address: a,
        size: b - a,
        status: Status::Free(class),
    };
    put(table, i, piece);
    i + 1
}

// The entries from i on become those of a gap. Answers the entry behind them.
pub fn put_gap(table: &mut [u64], i: usize, gap: Gap) -> usize
    requires { (i + length (gap_entries gap)) * entry_words ≤ length table.old }
    ensures { Put table.old i (gap_entries gap) result table.new }
{
    let middle = put_free(table, i, gap.k, gap.a, gap.lo);
    let last = put_free(table, middle, Class::Large, gap.lo, gap.hi);
    put_free(table, last, gap.m, gap.hi, gap.b)
}
