// Opening a space over a lent table: P, M and the table's length lie in the ranges of a sound state with E and n 0.
ghost use Rattle.std.specs.Prelude.{◌≡◌};
ghost use Rattle.space.specs.Opening.{opened, default_page, default_limit};
ghost use Rattle.space.specs.Said.{open_said};

use crate::Space;
use crate::answers::{OpenRefusal, Opened};

// The size of the blocks of the storage that new recorders sit on (request E7).
const DEFAULT_PAGE: u64 = 65536;

const DEFAULT_LIMIT: u64 = sound::LARGEST_LIMIT;

impl Space {
    // An empty space over a table whose old words are not looked at.
    pub fn open(page: u64, limit: u64, table: &mut [u64]) -> Opened
        ensures { open_said result table.new ≡ opened page limit table.old }
    {
        if !sound::in_ranges(page, limit, 0, 0, table.len()) {
            let nowhere = Space {
                page: 0,
                limit: 0,
                end: 0,
                count: 0,
            };
            return nowhere.answers(Err(OpenRefusal::OutOfRange));
        }
        moves::clear_all(table);
        let empty = Space {
            page,
            limit,
            end: 0,
            count: 0,
        };
        empty.answers(Ok(()))
    }

    // Pages of the default size, and the largest limit.
    pub fn open_default(table: &mut [u64]) -> Opened
        ensures { open_said result table.new ≡ opened default_page default_limit table.old }
    {
        Space::open(DEFAULT_PAGE, DEFAULT_LIMIT, table)
    }
}
