// Entries of a lent table replaced in place: those behind them move up or down, the new ones are laid, and what is left over becomes 0.
ghost use Rattle.std.specs.Prelude.{◌≡◌};
ghost use Rattle.edit.specs.New.{new_entries};
ghost use Rattle.edit.specs.Edit.{ShiftFits, shifted, SpliceFits, spliced};

use crate::new::{New, put_new};
use moves::{clear, move_down, move_up};
use pieces::ENTRY_WORDS;

// Entries j up to n go to entry a on, and every word behind them is 0.
fn shift(table: &mut [u64], n: usize, a: usize, j: usize)
    requires { ShiftFits table.old n a j }
    ensures { table.new ≡ shifted table.old n a j }
{
    if a == j {
        // They stay where they are, and the words behind them are 0 already.
        return;
    }
    let left = n - j;
    if a < j {
        move_down(table, a * ENTRY_WORDS, j * ENTRY_WORDS, left * ENTRY_WORDS);
        clear(table, (a + left) * ENTRY_WORDS, (j - a) * ENTRY_WORDS);
    } else {
        // The words behind the old entries are 0 already.
        move_up(table, a * ENTRY_WORDS, j * ENTRY_WORDS, left * ENTRY_WORDS);
    }
}

// Of n entries those from i up to j are replaced by the new ones: then there are `count`, which the caller has worked out.
pub fn splice(table: &mut [u64], n: usize, i: usize, j: usize, new: New, count: usize)
    requires { SpliceFits table.old n i j new count }
    ensures { table.new ≡ spliced table.old n i j (new_entries new) }
{
    let a = count - (n - j);
    shift(table, n, a, j);
    put_new(table, i, new);
}
