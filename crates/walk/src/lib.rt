// One step of the walk over the entries. The walk carries what is left of the page and a state that says what may follow, so that a small
// entry costs one look into a packed number and a few comparisons: only a large entry that runs over a border costs a remainder.
#![tactic(auto)]

ghost use Rattle.std.specs.Prelude.{◌≡◌, ◌≤◌, ◌<◌};
ghost use Rattle.pieces.specs.declared.Class.TheVariants.{Large};
ghost use Rattle.pieces.specs.declared.Status.TheVariants.{Live, Free};
ghost use Rattle.pieces.specs.Pieces.{kind_of, Kind};
ghost use Rattle.walk.specs.Walk.{behind_free_large, small_followsb, live_largeb, free_large_followsb, free_largeb, large_rulesb};
ghost use Rattle.walk.specs.Walk.{left_behind, walk_behind, walk_at, Walked, step_if, small_entryb, large_entryb, stepped};

use pieces::{FREE_LARGE, LIVE_LARGE, Words};

// Where the walk has come: behind an entry that ends at `at`, with `left` bytes to the first border above it. Inside a page the state is the
// kind of that entry; at a border it is one of the two numbers below, since there only a free large entry says anything of the next one.
// It is a number and no enum, since `small_follows` shifts by it and by the word of the kind: an enum would become this number again at each entry.
#[derive(Clone, Copy)]
pub struct Walk {
    pub at: u64,
    pub left: u64,
    pub state: u64,
}

const AT_BORDER: u64 = 0;

const BEHIND_FREE_LARGE: u64 = 7;

const STATE_BITS: u64 = 8;

// Which small kind may stand behind which state, a byte to a state and in it a bit to a kind: one look answers, with no jump.
//
//     state    0 (at a border)   1      2      3      4   5   6      7 (behind a free large)
//     kinds    1 2 4 5           1 4    2 5    none   1   2   none   1 2 4 5
//     byte     36                12     24     00     02  04  00     36
const SMALL_FOLLOWS: u64 = 0x3600_0402_0024_1236;

// Before the first entry all is as behind a live large one that ends at 0.
pub fn start(p: u64) -> Walk
    requires { 0 < p }
    ensures { result ≡ walk_at p 0 (Live Large) }
{
    Walk {
        at: 0,
        left: p,
        state: AT_BORDER,
    }
}

// Whether a kind is small and may stand behind a state.
fn small_follows(state: u64, kind: u64) -> bool
    requires { (state ≤ behind_free_large) × Kind kind }
    ensures { result ≡ small_followsb state kind }
{
    (SMALL_FOLLOWS >> (state * STATE_BITS + kind)) & 1 != 0
}

// What is left of the page behind so many bytes.
#[tactic(auto, unfolding(crate::specs::Walk::left_behind))]
fn left_behind(p: u64, left: u64, size: u64) -> u64
    requires { 0 < p }
    ensures { result ≡ left_behind p left size }
{
    if size < left {
        left - size
    } else if size == left {
        p
    } else {
        p - (size - left) % p
    }
}

// The walk behind an entry of this kind that ends at `at`.
#[tactic(auto, unfolding(crate::specs::Walk::state_of))]
fn behind(p: u64, at: u64, left: u64, kind: u64) -> Walk
    ensures { result ≡ walk_behind p at left kind }
{
    let state = if left != p {
        kind
    } else if kind == FREE_LARGE {
        BEHIND_FREE_LARGE
    } else {
        AT_BORDER
    };
    Walk { at, left, state }
}

// Behind a small entry whose kind may follow: it is smaller than a page, which for 1 to p - 1 is one comparison, and within what is left of one.
fn small_step(p: u64, walk: Walk, size: u64, kind: u64) -> Option<Walk>
    requires { Walked p walk × (kind < kind_of (Free Large)) }
    ensures { result ≡ step_if (small_entryb p walk size) p walk size kind }
{
    let left = walk.left;
    if !(1..=p - 1).contains(&size) || left < size {
        return None;
    }
    let at = walk.at + size;
    if left == size {
        return Some(Walk {
            at,
            left: p,
            state: AT_BORDER,
        });
    }
    Some(Walk {
        at,
        left: left - size,
        state: kind,
    })
}

// A live large entry starts at a border and has at least a page.
#[tactic(auto, unfolding(crate::specs::Walk::live_largeb))]
fn live_large_holds(p: u64, state: u64, size: u64) -> bool
    ensures { result ≡ live_largeb p state size }
{
    p <= size && (state == AT_BORDER || state == BEHIND_FREE_LARGE)
}

// A free large entry may stand at a border, not behind another, or inside a page behind a live large one.
fn free_large_follows(state: u64) -> bool
    ensures { result ≡ free_large_followsb state }
{
    state == AT_BORDER || state == LIVE_LARGE
}

// A free large entry stands where it may; as the last entry it has less than a page.
#[tactic(auto, unfolding(crate::specs::Walk::free_largeb))]
fn free_large_holds(p: u64, state: u64, size: u64, last: bool) -> bool
    ensures { result ≡ free_largeb p state size last }
{
    free_large_follows(state) && (!last || size < p)
}

// An entry is large, and holds as its kind asks.
#[tactic(auto, unfolding(crate::specs::Walk::large_rulesb))]
fn large_holds(p: u64, state: u64, kind: u64, size: u64, last: bool) -> bool
    ensures { result ≡ large_rulesb p state kind size last }
{
    match kind {
        LIVE_LARGE => live_large_holds(p, state, size),
        FREE_LARGE => free_large_holds(p, state, size, last),
        _ => false,
    }
}

// Behind any other entry.
fn large_step(p: u64, end: u64, walk: Walk, size: u64, kind: u64, last: bool) -> Option<Walk>
    requires { 0 < p }
    ensures { result ≡ step_if (large_entryb p end walk size kind last) p walk size kind }
{
    if size < 1
        || end < walk.at
        || end - walk.at < size
        || !large_holds(p, walk.state, kind, size, last)
    {
        return None;
    }
    Some(behind(p, walk.at + size, left_behind(p, walk.left, size), kind))
}

// The walk behind the next entry, if that keeps the rules.
#[tactic(auto, unfolding(crate::specs::Walk::stepb))]
pub fn advance(p: u64, end: u64, walk: Walk, entry: Words, last: bool) -> Option<Walk>
    requires { Walked p walk }
    ensures { result ≡ stepped p end walk entry last }
{
    if entry.address != walk.at || !pieces::is_kind(entry.kind) {
        return None;
    }
    if small_follows(walk.state, entry.kind) {
        small_step(p, walk, entry.size, entry.kind)
    } else {
        large_step(p, end, walk, entry.size, entry.kind, last)
    }
}
