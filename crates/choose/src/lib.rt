// The best place for a piece: of the free entries that it fits, the smallest, and of several as small the lowest. Nothing is added to a size
// or an address, so every size up to 2^64 - 1 may be asked.
#![tactic(auto)]

pub mod place;

ghost use Rattle.std.specs.Prelude.{◌≡◌, ◌+◌, ◌*◌, ◌≤◌, ◌<◌, length};
ghost use Rattle.pieces.specs.Words.{entry_words, entries_in};
ghost use Rattle.choose.specs.Choose.{room_in, fits_in, best};
ghost use Rattle.choose.specs.Walk.{no_size, size_if_fits, holding, ChooseFits};

use pieces::{Class, Piece, Status};

// Stands for the size of an entry that does not fit, and for the least size so far where none did: every entry is smaller. It is not 2^64 - 1,
// of which the compiler knows that it is never the less of two: on Arm it then makes jumps of the choice below. And it is no `None`, which each entry
// would ask about first: where a jump stood here, an allocation took a third longer (docs/BENCH.md, 'What each step gave').
const NO_SIZE: u64 = 1 << 63;

// An entry's size, if it is of the wanted kind and has s bytes. Kinds and sizes come in no order that a processor could foresee: as a choice
// between two numbers this takes no jump.
#[tactic(auto, unfolding(crate::specs::Walk::size_if_fits))]
fn size_if_fits(kind: u64, wanted: u64, size: u64, s: u64) -> u64
    ensures { result ≡ size_if_fits kind wanted size s }
{
    if kind == wanted && s <= size {
        size
    } else {
        NO_SIZE
    }
}

// Whether s bytes of a class have room in an entry of no fewer bytes. A large piece goes to the first border, so what the entry has beyond s
// bytes must reach there. Only a large piece costs a division.
#[tactic(auto, unfolding(crate::specs::Choose::room_in))]
fn room(p: u64, class: Class, s: u64, address: u64, size: u64) -> bool
    requires { (0 < p) × (s ≤ size) }
    ensures { result ≡ room_in p class s address size }
{
    match class {
        Class::SmallMetadata | Class::SmallRaw => true,
        Class::Large => pages::up_from(p, address) <= size - s,
    }
}

// The place that a walk holds: entry `held`, of `least` bytes, or nothing.
#[tactic(auto, unfolding(crate::specs::Walk::holding))]
fn held_place(held: usize, least: u64, entries: &[u64]) -> Option<(usize, Piece)>
    requires { least < no_size → (held + 1) * entry_words ≤ length entries.now }
    ensures { result ≡ holding entries.now held least }
{
    if least < NO_SIZE {
        Some((held, pieces::piece_at(entries, held)))
    } else {
        None
    }
}

// The best place for s bytes of a class among the entries: an entry's number with its piece, or nothing where none fits.
pub fn best_place(p: u64, class: Class, s: u64, entries: &[u64]) -> Option<(usize, Piece)>
    requires { ChooseFits p entries.now }
    ensures { result ≡ best (fits_in p class s) 0 None (entries_in entries.now) }
{
    let wanted = u64::from(Status::Free(class));
    let mut held: usize = 0;
    let mut least = NO_SIZE;
    let n = pieces::count_in(entries);
    let mut i: usize = 0;
    // The best of all entries is the best of those from i on and of what is held. Counted by hand: the customer's form is a walk that is left by
    // break at the end too, and not a `for`, which ends by itself.
    'walk: loop {
        if n <= i {
            break 'walk;
        }
        let entry = pieces::words_at(entries, i);
        // This seldom holds. What is no better is not asked for its room, which can cost a division.
        if size_if_fits(entry.kind, wanted, entry.size, s) < least
            && room(p, class, s, entry.address, entry.size)
        {
            held = i;
            least = entry.size;
            // An exact fit cannot be beaten, and the walk goes up, so the first one is the lowest.
            if entry.size == s {
                break 'walk;
            }
        }
        i += 1;
    }
    held_place(held, least, entries)
}
