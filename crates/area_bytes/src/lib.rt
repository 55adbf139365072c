// The area of a C host, in bytes: the four numbers of the state, then the words of the table, each a word of eight bytes, the lowest byte first.
#![tactic(auto)]

ghost use Rattle.std.specs.Prelude.{◌≡◌, ◌+◌, ◌*◌, ◌≤◌, length};
ghost use Rattle.area_bytes.specs.Area.{table_at, entry_bytes, area_lengthb, table_words, state_in, words_in, AreaFits, head_of, area_of};
ghost use Rattle.little.specs.Little.{word_bytes, part, bytes_of_all, laid};
ghost use Rattle.pieces.specs.Words.{entry_words};

use little::WORD_BYTES;
use pieces::ENTRY_WORDS;
use space::Space;

// Where P, M, E, n and the table start.
const PAGE_AT: usize = 0;

const LIMIT_AT: usize = PAGE_AT + WORD_BYTES;

const END_AT: usize = LIMIT_AT + WORD_BYTES;

const COUNT_AT: usize = END_AT + WORD_BYTES;

const TABLE_AT: usize = COUNT_AT + WORD_BYTES;

const ENTRY_BYTES: usize = ENTRY_WORDS * WORD_BYTES;

// Whether an area may have so many bytes.
pub fn is_area_length(length: usize) -> bool
    ensures { result ≡ area_lengthb length }
{
    if length < TABLE_AT {
        return false;
    }
    if (length - TABLE_AT) % WORD_BYTES != 0 {
        return false;
    }
    sound::is_table_length((length - TABLE_AT) / WORD_BYTES)
}

// How many words the table has, in an area of so many bytes.
pub fn table_words(length: usize) -> usize
    requires { table_at ≤ length }
    ensures { result ≡ table_words length }
{
    (length - TABLE_AT) / WORD_BYTES
}

// The state; and `table` gets the words.
pub fn read(area: &[u8], table: &mut [u64]) -> Space
    requires { AreaFits area.now table.old }
    ensures { (result ≡ state_in area.now) × (table.new ≡ words_in area.now) }
{
    words::get_words(&area[TABLE_AT..], table);
    Space {
        page: words::get_word(&area[PAGE_AT..LIMIT_AT]),
        limit: words::get_word(&area[LIMIT_AT..END_AT]),
        end: words::get_word(&area[END_AT..COUNT_AT]),
        count: words::get_word(&area[COUNT_AT..TABLE_AT]),
    }
}

// Puts the state in front of the table.
pub fn put_state(space: Space, area: &mut [u8])
    requires { table_at ≤ length area.old }
    ensures { area.new ≡ laid 0 table_at (head_of space) area.old }
{
    words::put_word(space.page, &mut area[PAGE_AT..LIMIT_AT]);
    words::put_word(space.limit, &mut area[LIMIT_AT..END_AT]);
    words::put_word(space.end, &mut area[END_AT..COUNT_AT]);
    words::put_word(space.count, &mut area[COUNT_AT..TABLE_AT]);
}

// Puts the state and the whole table.
pub fn write(space: Space, table: &[u64], area: &mut [u8])
    requires { AreaFits area.old table.now }
    ensures { area.new ≡ area_of space table.now }
{
    put_state(space, area);
    words::put_words(table, &mut area[TABLE_AT..]);
}

// Puts the entries of the table from one up to another in their place.
pub fn put_entries(table: &[u64], from: usize, to: usize, area: &mut [u8])
    requires { AreaFits area.old table.now × ((from ≤ to) × (to * entry_words ≤ length table.now)) }
    ensures { area.new
        ≡ laid (table_at + from * entry_bytes) (table_at + to * entry_bytes) (bytes_of_all word_bytes (part (from * entry_words) (to * entry_words) table.now)) area.old }
{
    let part = &table[from * ENTRY_WORDS..to * ENTRY_WORDS];
    words::put_words(
        part,
        &mut area[TABLE_AT + from * ENTRY_BYTES..TABLE_AT + to * ENTRY_BYTES],
    );
}
