// What a walk over a table asks of a kind, answered from the word itself: a walk that reads a status first takes a jump at every entry, and misses the
// bar of speed (docs/BENCH.md, 'What made the first version slow').
ghost use Rattle.std.specs.Prelude.{true, ◌≡◌};
ghost use Rattle.pieces.specs.Pieces.{class_of, freeb, free_of, manager_of, Kind, status_of};

use crate::{Class, FREE_METADATA, LIVE_LARGE, Status, is_kind};

// Whether a word reads as free and of this class, whatever it says: what is no kind reads as free large.
pub fn is_free_of(kind: u64, class: Class) -> bool
    ensures { result ≡ free_of class (status_of kind) }
{
    kind == u64::from(Status::Free(class)) || class == Class::Large && !is_kind(kind)
}

// Whether a kind is a free one.
pub fn is_free(kind: u64) -> bool
    requires { Kind kind }
    ensures { result ≡ freeb (status_of kind) }
{
    LIVE_LARGE < kind
}

// The manager of a free kind, counted from 0.
pub fn manager_of(kind: u64) -> usize
    requires { (Kind kind) × (freeb (status_of kind) ≡ true) }
    ensures { result ≡ manager_of (class_of (status_of kind)) }
{
    (kind - FREE_METADATA) as usize
}
