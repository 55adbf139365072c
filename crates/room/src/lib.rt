// The room behind a piece, how far a file may grow, and what remains of a piece that is shortened. Nothing is added to a change, since any up to
// 2^64 - 1 is a legal question.
#![tactic(auto)]

ghost use Rattle.std.specs.Prelude.{◌≡◌, List, [], ◌∷◌, ℕ, ◌-◌, ◌<◌};
ghost use Rattle.pieces.specs.Words.{entries, entries_in};
ghost use Rattle.room.specs.Room.{small_roomb, large_roomb, room_behindb, passesb, grows_beyondb, GrowFits, remainsb};

use pieces::{Class, Piece};

// Whether a small piece of z bytes that ends at e may take m bytes of the entry behind it: that is free, in the page, and long enough, and
// the new size stays below a page.
#[tactic(auto, unfolding(crate::specs::Room::small_roomb))]
fn small_room(p: u64, e: u64, z: u64, m: u64, next: Piece) -> bool
    requires { 0 < p }
    ensures { result ≡ small_roomb p e z m (next ∷ []) }
{
    !pages::is_border(p, e) && next.status.is_free() && m <= next.size && z < p && m < p - z
}

// Whether a large piece may take m bytes of the entry behind it: that is free large, and long enough.
#[tactic(auto, unfolding(crate::specs::Room::large_roomb))]
fn large_room(m: u64, next: Piece) -> bool
    ensures { result ≡ large_roomb m (next ∷ []) }
{
    next.status.is_large_free() && m <= next.size
}

// The room in the entry behind a piece, by its class.
#[tactic(auto, unfolding(crate::specs::Room::room_behindb))]
fn room_in(p: u64, class: Class, e: u64, z: u64, m: u64, next: Piece) -> bool
    requires { 0 < p }
    ensures { result ≡ room_behindb p class e z m (next ∷ []) }
{
    match class {
        Class::SmallMetadata | Class::SmallRaw => small_room(p, e, z, m, next),
        Class::Large => large_room(m, next),
    }
}

// At the file's end a large piece has room.
#[tactic(auto, unfolding(crate::specs::Room::room_behindb, crate::specs::Room::small_roomb, crate::specs::Room::large_roomb))]
fn room_at_end(p: u64, class: Class, e: u64, z: u64, m: u64) -> bool
    ensures { result ≡ room_behindb p class e z m [] }
{
    class == Class::Large
}

// The room behind a piece of z bytes that ends at e, with these entries behind it.
pub fn has_room(p: u64, class: Class, e: u64, z: u64, m: u64, behind: &[u64]) -> bool
    requires { 0 < p }
    ensures { result ≡ room_behindb p class e z m (entries_in behind.now) }
{
    if 0 < pieces::count_in(behind) {
        room_in(p, class, e, z, m, pieces::piece_at(behind, 0))
    } else {
        room_at_end(p, class, e, z, m)
    }
}

// Whether a file would pass its limit if a piece that ends at e grew by m.
pub fn passes_limit(p: u64, limit: u64, e: u64, m: u64) -> bool
    requires { GrowFits p limit e }
    ensures { result ≡ passesb p limit e m }
{
    limit - e < m || limit < pages::round_up(p, e + m)
}

// Whether no entry j of n stands behind a piece that ends at e, and the file would pass its limit.
pub fn grows_beyond(p: u64, limit: u64, e: u64, m: u64, j: usize, n: usize) -> bool
    requires { GrowFits p limit e }
    ensures { (w : List ℕ) → result ≡ grows_beyondb p limit e m (entries w j (n - j)) }
{
    n <= j && passes_limit(p, limit, e, m)
}

// Whether enough remains of a piece of z bytes without k.
#[tactic(auto, unfolding(crate::specs::Room::remainsb))]
pub fn remains(p: u64, class: Class, z: u64, k: u64) -> bool
    ensures { result ≡ remainsb p class z k }
{
    match class {
        Class::SmallMetadata | Class::SmallRaw => k < z,
        Class::Large => p <= z && k <= z - p,
    }
}
