// The tables of document 01's run with P = 512 and C = 12.
ghost use Rattle.std.specs.Prelude.{◌≡◌};
ghost use Rattle.show.specs.Scenes.{after_step_five, after_step_twelve};

use crate::scene::{WORDS, blank, with_entry};
use pieces::ENTRY_WORDS;

// The words of its table.
pub const TABLE_WORDS: usize = 12 * ENTRY_WORDS;

// After step 12: the first four entries of the table after step 5.
pub fn after_step_twelve() -> [u64; WORDS]
    ensures { result ≡ after_step_twelve }
{
    let w = blank();
    let w = with_entry(w, 0, 0, 96, 1);
    let w = with_entry(w, 1, 96, 416, 1);
    let w = with_entry(w, 2, 512, 100, 2);
    with_entry(w, 3, 612, 412, 5)
}

pub fn after_step_five() -> [u64; WORDS]
    ensures { result ≡ after_step_five }
{
    let w = after_step_twelve();
    let w = with_entry(w, 4, 1024, 700, 3);
    let w = with_entry(w, 5, 1724, 324, 6);
    let w = with_entry(w, 6, 2048, 10, 1);
    with_entry(w, 7, 2058, 502, 4)
}
