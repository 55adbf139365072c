// The live pieces on the two sides of a place in the table.
ghost use Rattle.std.specs.Prelude.{◌≡◌, ◌-◌, ◌*◌, ◌≤◌, length};
ghost use Rattle.pieces.specs.Words.{entry_words, EndsFit};
ghost use Rattle.change.specs.Change.{former_of, next_of};

use pieces::{Class, Status};

// The entry behind the former live piece, that piece's class, and where it ends.
#[derive(Clone, Copy)]
pub struct Former {
    pub from: usize,
    pub class: Class,
    pub end: u64,
}

// The last live piece before entry i. Where there is none all is as behind a large piece that ends at 0.
pub fn live_before(i: usize, table: &[u64]) -> Former
    requires { (i * entry_words ≤ length table.now) × EndsFit table.now i }
    ensures { result ≡ former_of table.now i }
{
    for k in (0..i).rev() {
        let piece = pieces::piece_at(table, k);
        if let Status::Live(class) = piece.status {
            return Former {
                from: k + 1,
                class,
                end: piece.address + piece.size,
            };
        }
    }
    Former {
        from: 0,
        class: Class::Large,
        end: 0,
    }
}

// The first live entry from entry j on; n, if there is none.
pub fn live_from(j: usize, n: usize, table: &[u64]) -> usize
    requires { (j ≤ n) × (n * entry_words ≤ length table.now) }
    ensures { result ≡ next_of table.now j (n - j) }
{
    for to in j..n {
        if !pieces::piece_at(table, to).status.is_free() {
            return to;
        }
    }
    n
}
