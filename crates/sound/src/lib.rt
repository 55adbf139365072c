// Whether a state and a lent table are sound together: the ranges, one pass over the entries that refuses at the first break of a local
// rule and asks at its end whether it came to E, and the zero words behind them. Any four numbers and any slice get an answer, and no sum can
// overflow.
#![tactic(auto)]

ghost use Rattle.std.specs.Prelude.{◌≡◌, ◌+◌, ◌≤◌, ◌&&◌, eqb, length, take, drop};
ghost use Rattle.pieces.specs.declared.Class.TheVariants.{Large};
ghost use Rattle.pieces.specs.declared.Status.TheVariants.{Live};
ghost use Rattle.pieces.specs.Words.{entries};
ghost use Rattle.table.specs.Local.{table_lengthb, rangesb, kindsb, zerosb, chainb, localb};
ghost use Rattle.walk.specs.Walk.{WalkFits};

use pieces::ENTRY_WORDS;

pub const LARGEST_LIMIT: u64 = 4611686018427387904;

pub const LEAST_CAPACITY: usize = 4;

pub const LARGEST_CAPACITY: usize = 1024;

const LEAST_LENGTH: usize = LEAST_CAPACITY * ENTRY_WORDS;

const LARGEST_LENGTH: usize = LARGEST_CAPACITY * ENTRY_WORDS;

// The words behind the entries are looked at by blocks: the compiler makes vectors of a loop that has a fixed number of turns and leaves at its end.
const BLOCK: usize = 48 * ENTRY_WORDS;

// Whether a lent slice may have so many words.
#[tactic(auto, unfolding(table::specs::Local::table_lengthb))]
pub fn is_table_length(len: usize) -> bool
    ensures { result ≡ table_lengthb len }
{
    len % ENTRY_WORDS == 0 && (LEAST_LENGTH..=LARGEST_LENGTH).contains(&len)
}

// The ranges of the state, and of the slice's length.
#[tactic(auto, unfolding(table::specs::Local::rangesb))]
pub fn in_ranges(page: u64, limit: u64, end: u64, count: u64, len: usize) -> bool
    ensures { result ≡ rangesb page limit end count len }
{
    pages::is_page_size(page)
        && (page..=LARGEST_LIMIT).contains(&limit)
        && pages::is_border(page, end)
        && end <= limit
        && is_table_length(len)
        && count <= (len / ENTRY_WORDS) as u64
}

// The entries: every kind is one, each entry keeps the rules behind the one before it, and the last ends at the end. The walk is a function of its own
// in each program: as a part of `is_sound` it had its way out so far off that the jumps there were long, and more of the jumps that a test executes lay
// at or over a border of 32 bytes, where some processors are slow (docs/BENCH.md).
#[inline(never)]
pub fn entries_hold(page: u64, end: u64, n: usize, table: &[u64]) -> bool
    requires { WalkFits page end n table.now }
    ensures { result ≡ (kindsb table.now 0 n && chainb page end (Live Large) 0 (entries table.now 0 n)) }
{
    let mut walk = walk::start(page);
    for i in 0..n {
        let entry = pieces::words_at(table, i);
        let Some(next) = walk::advance(page, end, walk, entry, i + 1 == n) else {
            return false;
        };
        walk = next;
    }
    walk.at == end
}

// The bits that any of the words has.
fn bits_of(words: &[u64]) -> u64
    ensures { eqb result 0 ≡ zerosb words.now }
{
    words.iter().fold(0, |bits, word| bits | word)
}

// Whether every word from `from` on is 0: by blocks while a whole one is left, then the rest.
pub fn zeros_from(from: usize, table: &[u64]) -> bool
    requires { from ≤ length table.now }
    ensures { result ≡ zerosb (drop from table.now) }
{
    let blocks = table[from..].chunks_exact(BLOCK);
    let rest = blocks.remainder();
    for block in blocks {
        if bits_of(block) != 0 {
            return false;
        }
    }
    bits_of(rest) == 0
}

// Whether the state and the table are sound together. Without the walk it is short enough to be laid out at each call that tests a table; it is to stand
// once in a program.
#[inline(never)]
#[tactic(auto, unfolding(table::specs::Local::localb))]
pub fn is_sound(page: u64, limit: u64, end: u64, count: u64, table: &[u64]) -> bool
    ensures { result ≡ localb page limit end count table.now }
{
    if !in_ranges(page, limit, end, count, table.len()) {
        return false;
    }
    let n = count as usize;
    entries_hold(page, end, n, table) && zeros_from(n * ENTRY_WORDS, table)
}
