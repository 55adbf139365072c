// What a change puts between two live pieces that stay: free bytes alone, or a live piece with the free bytes on its two sides.
ghost use Rattle.std.specs.Prelude.{◌≡◌, ◌+◌, ◌*◌, ◌≤◌, length};
ghost use Rattle.pieces.specs.Words.{entry_words, laid};
ghost use Rattle.edit.specs.New.{new_entries};

use crate::gap::{Gap, count_gap, put_gap};
use pieces::{Piece, put};

#[derive(Clone, Copy)]
pub enum New {
    Without(Gap),
    With(Gap, Piece, Gap),
}

// How many entries they are.
pub fn count_new(new: New) -> usize
    ensures { result ≡ length (new_entries new) }
{
    match new {
        New::Without(gap) => count_gap(gap),
        New::With(front, _, rear) => count_gap(front) + 1 + count_gap(rear),
    }
}

// The entries from i on become the new ones.
pub fn put_new(table: &mut [u64], i: usize, new: New)
    requires { (i + length (new_entries new)) * entry_words ≤ length table.old }
    ensures { table.new ≡ laid table.old i (new_entries new) }
{
    match new {
        New::Without(gap) => {
            put_gap(table, i, gap);
        }
        New::With(front, piece, rear) => {
            let at = put_gap(table, i, front);
            put(table, at, piece);
            put_gap(table, at + 1, rear);
        }
    }
}
