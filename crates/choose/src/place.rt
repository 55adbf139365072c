// Where a piece goes, and how that place was found.
ghost use Rattle.std.specs.Prelude.{◌≡◌};
ghost use Rattle.pieces.specs.Words.{count_in, entries_in, EndsFit};
ghost use Rattle.choose.specs.Place.{as_page, large_place_for, small_place_for, place_for, at_endb, place_address, place_entry};
ghost use Rattle.choose.specs.Walk.{ChooseFits};

use crate::best_place;
use pieces::Class;

#[derive(Clone, Copy)]
pub enum Place {
    // In entry i, a section of the right manager, at this address.
    Section(usize, u64),
    // In entry i, a page out of the large manager's free space for a small piece, at this address.
    Page(usize, u64),
    // New pages at the end.
    End,
}

impl Place {
    // The same place, found as a page for a small piece.
    fn as_page(self) -> Place
        ensures { result ≡ as_page self }
    {
        match self {
            Place::Section(i, b) | Place::Page(i, b) => Place::Page(i, b),
            Place::End => Place::End,
        }
    }

    // Whether a place is new pages at the end.
    pub fn is_end(self) -> bool
        ensures { result ≡ at_endb self }
    {
        matches!(self, Place::End)
    }

    // The address of a place, in a file that ends at `end`.
    pub fn address(self, end: u64) -> u64
        ensures { result ≡ place_address end self }
    {
        match self {
            Place::Section(_, b) | Place::Page(_, b) => b,
            Place::End => end,
        }
    }

    // The entry before which a piece at the place stands, of n entries.
    pub fn entry(self, n: usize) -> usize
        ensures { result ≡ place_entry n self }
    {
        match self {
            Place::Section(i, _) | Place::Page(i, _) => i,
            Place::End => n,
        }
    }
}

// The place of a large piece: the first border in the best free large entry, or the end.
#[tactic(auto, unfolding(crate::specs::Place::large_place_for))]
fn large_place_for(p: u64, s: u64, entries: &[u64]) -> Place
    requires { ChooseFits p entries.now × EndsFit entries.now (count_in entries.now) }
    ensures { result ≡ large_place_for p s (entries_in entries.now) }
{
    match best_place(p, Class::Large, s, entries) {
        Some((i, piece)) => Place::Section(i, piece.address + pages::up_from(p, piece.address)),
        None => Place::End,
    }
}

// The place of a small piece: the start of the best free small entry of its class, or a page by the large rule.
#[tactic(auto, unfolding(crate::specs::Place::small_place_for))]
fn small_place_for(p: u64, class: Class, s: u64, entries: &[u64]) -> Place
    requires { ChooseFits p entries.now × EndsFit entries.now (count_in entries.now) }
    ensures { result ≡ small_place_for p class s (entries_in entries.now) }
{
    match best_place(p, class, s, entries) {
        Some((i, piece)) => Place::Section(i, piece.address),
        None => large_place_for(p, p, entries).as_page(),
    }
}

// The place for s bytes of a class.
#[tactic(auto, unfolding(crate::specs::Place::place_for))]
pub fn place_for(p: u64, class: Class, s: u64, entries: &[u64]) -> Place
    requires { ChooseFits p entries.now × EndsFit entries.now (count_in entries.now) }
    ensures { result ≡ place_for p class s (entries_in entries.now) }
{
    match class {
        Class::SmallMetadata | Class::SmallRaw => small_place_for(p, class, s, entries),
        Class::Large => large_place_for(p, s, entries),
    }
}
