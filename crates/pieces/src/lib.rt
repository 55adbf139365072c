// A piece with its status, and the words of a lent table that say one. This crate alone knows how many words an entry has and which is which,
// and what numbers the kinds are; only the packed number of `sound` has a bit for each kind too.
//
//     word    | i * 3    | i * 3 + 1 | i * 3 + 2
//     entry i | address  | size      | kind
#![tactic(auto)]

pub mod kind;

ghost use Rattle.std.specs.Prelude.{◌≡◌, [], ◌∷◌, ◌+◌, ◌*◌, ◌/◌, ◌≤◌, min, length};
ghost use Rattle.pieces.specs.Pieces.{class_of, freeb, large_freeb, kind_of, kindb, status_of};
ghost use Rattle.pieces.specs.Words.{entry_words, words_of, count_in, words_at, piece_of, entry_at, laid};

#[derive(Clone, Copy, PartialEq, Eq, Debug)]
pub enum Class {
    SmallMetadata,
    SmallRaw,
    Large,
}

#[derive(Clone, Copy, PartialEq, Eq, Debug)]
pub enum Status {
    Live(Class),
    Free(Class),
}

#[derive(Clone, Copy, PartialEq, Eq, Debug)]
pub struct Piece {
    pub address: u64,
    pub size: u64,
    pub status: Status,
}

// The three words of an entry as they stand, whatever they say: the kind is a number here, since any word can stand there.
#[derive(Clone, Copy, PartialEq, Eq, Debug)]
pub struct Words {
    pub address: u64,
    pub size: u64,
    pub kind: u64,
}

pub const ENTRY_WORDS: usize = 3;

const SIZE_WORD: usize = 1;

const KIND_WORD: usize = 2;

pub const LIVE_LARGE: u64 = 3;

const FREE_METADATA: u64 = 4;

pub const FREE_LARGE: u64 = 6;

const LEAST_KIND: u64 = 1;

const LARGEST_KIND: u64 = FREE_LARGE;

impl Status {
    pub fn class(self) -> Class
        ensures { result ≡ class_of self }
    {
        match self {
            Status::Live(class) | Status::Free(class) => class,
        }
    }

    pub fn is_free(self) -> bool
        ensures { result ≡ freeb self }
    {
        matches!(self, Status::Free(_))
    }

    // Whether a status is free large.
    pub fn is_large_free(self) -> bool
        ensures { result ≡ large_freeb self }
    {
        self == Status::Free(Class::Large)
    }
}

// The kind, 1 to 6, of a status.
impl From<Status> for u64 {
    ghost from_gives = { λ status kind. kind ≡ kind_of status };

    fn from(status: Status) -> u64 {
        match status {
            Status::Live(Class::SmallMetadata) => 1,
            Status::Live(Class::SmallRaw) => 2,
            Status::Live(Class::Large) => LIVE_LARGE,
            Status::Free(Class::SmallMetadata) => FREE_METADATA,
            Status::Free(Class::SmallRaw) => 5,
            Status::Free(Class::Large) => FREE_LARGE,
        }
    }
}

// How many entries to look at where a state counts so many and so many words are lent: those that it counts, as far as the words reach.
pub fn entries_within(count: u64, words: usize) -> usize
    ensures { result ≡ min count (words / entry_words) }
{
    count.min((words / ENTRY_WORDS) as u64) as usize
}

// How many entries the words fill.
pub fn count_in(words: &[u64]) -> usize
    ensures { result ≡ count_in words.now }
{
    words.len() / ENTRY_WORDS
}

// The words of the entries from one up to another.
pub fn words_of(table: &[u64], from: usize, to: usize) -> &[u64]
    requires { (from ≤ to) × (to * entry_words ≤ length table.now) }
    ensures { result.now ≡ words_of table.now from to }
{
    &table[from * ENTRY_WORDS..to * ENTRY_WORDS]
}

// Whether a word is a kind.
pub fn is_kind(word: u64) -> bool
    ensures { result ≡ kindb word }
{
    (LEAST_KIND..=LARGEST_KIND).contains(&word)
}

// The status of a kind. A word that is no kind, which no sound table has, is read as 6: what loses that is no `From`, and nobody could use the error
// of a `TryFrom`.
#[tactic(auto, unfolding(crate::specs::Pieces::status_of))]
pub fn status_of(kind: u64) -> Status
    ensures { result ≡ status_of kind }
{
    match kind {
        1 => Status::Live(Class::SmallMetadata),
        2 => Status::Live(Class::SmallRaw),
        3 => Status::Live(Class::Large),
        4 => Status::Free(Class::SmallMetadata),
        5 => Status::Free(Class::SmallRaw),
        _ => Status::Free(Class::Large),
    }
}

// The words of entry i.
pub fn words_at(table: &[u64], i: usize) -> Words
    requires { (i + 1) * entry_words ≤ length table.now }
    ensures { result ≡ words_at table.now i }
{
    let at = i * ENTRY_WORDS;
    Words {
        address: table[at],
        size: table[at + SIZE_WORD],
        kind: table[at + KIND_WORD],
    }
}

// The address of entry i: one word, for a walk that looks at the rest where this is the one it seeks.
pub fn address_at(table: &[u64], i: usize) -> u64
    requires { (i + 1) * entry_words ≤ length table.now }
    ensures { result ≡ (entry_at table.now i).address }
{
    table[i * ENTRY_WORDS]
}

// The piece that three words say.
pub fn piece_of(words: Words) -> Piece
    ensures { result ≡ piece_of words }
{
    Piece {
        address: words.address,
        size: words.size,
        status: status_of(words.kind),
    }
}

// Entry i.
pub fn piece_at(table: &[u64], i: usize) -> Piece
    requires { (i + 1) * entry_words ≤ length table.now }
    ensures { result ≡ entry_at table.now i }
{
    piece_of(words_at(table, i))
}

// Entry i becomes this piece; every other word stays.
pub fn put(table: &mut [u64], i: usize, piece: Piece)
    requires { (i + 1) * entry_words ≤ length table.old }
    ensures { table.new ≡ laid table.old i (piece ∷ []) }
{
    let at = i * ENTRY_WORDS;
    table[at] = piece.address;
    table[at + SIZE_WORD] = piece.size;
    table[at + KIND_WORD] = u64::from(piece.status);
}
