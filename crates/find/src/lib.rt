// What an address and a size name in a table: a live piece, or else what is wrong with them. The entry in which the address lies decides.
#![tactic(auto)]

ghost use Rattle.std.specs.Prelude.{◌≡◌};
ghost use Rattle.pieces.specs.Words.{count_in, entries_in};
ghost use Rattle.find.specs.Find.{told_of, find_in};
ghost use Rattle.find.specs.Walk.{Rising, Started};

use pieces::{Piece, address_at, piece_of, words_at};
use refusals::NotNamed;

// How many of the entries start at or before the address. Those before `low` do, and those from `high` on do not: what lies between is halved
// until nothing is left of it. A loop by hand: the library halves slices of elements, and an entry is three words of a slice of words.
fn started(address: u64, entries: &[u64]) -> usize
    requires { Rising entries.now (count_in entries.now) }
    ensures { Started address (count_in entries.now) entries.now result }
{
    let mut low: usize = 0;
    let mut high = pieces::count_in(entries);
    while low < high {
        let middle = low + (high - low) / 2;
        if address < address_at(entries, middle) {
            high = middle;
        } else {
            low = middle + 1;
        }
    }
    low
}

// What is told of an address and a size, where the address lies in this piece, entry i.
#[tactic(auto, unfolding(crate::specs::Find::told_of))]
fn told(address: u64, size: u64, i: usize, piece: Piece) -> Result<(usize, Piece), NotNamed>
    ensures { result ≡ told_of address size i piece }
{
    if piece.status.is_free() {
        return Err(NotNamed::InFree);
    }
    if piece.address != address {
        return Err(NotNamed::InsideLive);
    }
    if piece.size != size {
        return Err(NotNamed::OtherSize);
    }
    Ok((i, piece))
}

// What an address and a size name among the entries of a table. Each entry ends where the next one starts, or before, so the address
// lies in the last that starts at or before it, or in none.
pub fn find(address: u64, size: u64, entries: &[u64]) -> Result<(usize, Piece), NotNamed>
    requires { Rising entries.now (count_in entries.now) }
    ensures { result ≡ find_in address size 0 (entries_in entries.now) }
{
    let started = started(address, entries);
    if 0 < started {
        let i = started - 1;
        let words = words_at(entries, i);
        if address - words.address < words.size {
            return told(address, size, i, piece_of(words));
        }
    }
    Err(NotNamed::BeyondEnd)
}
