// The records of a log, played over a lent table: each call is made once more, on what the ones before it left, and compared with the record.
#![tactic(auto)]

ghost use Rattle.std.specs.Prelude.{◌≡◌, ◌≤◌, length, drop, replicate};
ghost use Rattle.log_blocks.specs.Blocks.{records_at, most_records};
ghost use Rattle.log_blocks.specs.Records.{records_from};
ghost use Rattle.log_check.specs.Check.{block_bytes};
ghost use Rattle.log_play.specs.Lent.{table_words, Lent, FileFits, file_in, heard_in, Compares, played_in};
ghost use Rattle.log_play.specs.Playing.{words_for, hear_open, call_of, heard, played};
ghost use Rattle.space.specs.Opening.{opened};
ghost use Rattle.space.specs.Said.{open_said};

use call::Call;
use log_blocks::records::{ALLOCATE, EXTEND, OPEN, RELEASE, Record};
use moves::clear_all;
use pieces::ENTRY_WORDS;
use refusals::number_of;
use sound::{LARGEST_CAPACITY, LEAST_CAPACITY};
use space::Space;
use space::answers::Opened;

// A file: its state, and how many of the lent table's words are its own.
#[derive(Clone, Copy)]
pub struct Held {
    pub space: Space,
    pub used: usize,
}

// What a call told that was made once more, and the file then.
#[derive(Clone, Copy)]
pub struct Told {
    pub number: u64,
    pub answer: u64,
    pub file: Held,
}

// How many records agreed before the first one that did not, and the file then.
#[derive(Clone, Copy)]
pub struct Run {
    pub agreed: usize,
    pub file: Held,
}

// The words of a table for so many entries; none, where an open takes no such table.
#[tactic(auto, unfolding(crate::specs::Playing::words_for))]
fn words_for(entries: u64) -> usize
    ensures { (result ≡ words_for entries) × (result ≤ table_words) }
{
    if entries < (LEAST_CAPACITY as u64) {
        return 0;
    }
    if (LARGEST_CAPACITY as u64) < entries {
        return 0;
    }
    entries as usize * ENTRY_WORDS
}

// The table's words are cleared first, so that a refused open leaves zeros too.
fn open_blank(page: u64, limit: u64, table: &mut [u64]) -> Opened
    ensures { open_said result table.new ≡ opened page limit (replicate (length table.old) 0) }
{
    clear_all(table);
    Space::open(page, limit, table)
}

// An open, over the words for so many entries.
fn open_anew(said: Record, table: &mut [u64]) -> Told
    requires { Lent table.old }
    ensures is { heard_in result table.new ≡ hear_open said }
    ensures fits { FileFits result.file }
{
    let used = words_for(said.address);
    let done = open_blank(said.size, said.change, &mut table[..used]);
    let space = done.space;
    Told {
        number: number_of(done.answer),
        answer: 0,
        file: Held { space, used },
    }
}

// The call that a record is, but for an open.
#[tactic(auto, unfolding(crate::specs::Playing::call_of))]
fn call_of(said: Record) -> Call
    ensures { result ≡ call_of said }
{
    match said.operation {
        ALLOCATE => Call::Allocate(said.code, said.size),
        RELEASE => Call::Release(said.address, said.size),
        EXTEND => Call::Extend(said.address, said.size, said.change),
        _ => Call::Shorten(said.address, said.size, said.change),
    }
}

fn hear(said: Record, file: Held, table: &mut [u64]) -> Told
    requires { Lent table.old × FileFits file }
    ensures is { heard_in result table.new ≡ heard said (file_in file table.old) }
    ensures fits { FileFits result.file }
{
    if said.operation == OPEN {
        return open_anew(said, table);
    }
    let used = file.used;
    let space = file.space;
    let told = call::tell(space, &mut table[..used], call_of(said));
    let next = told.space;
    Told {
        number: told.number,
        answer: told.answer,
        file: Held { space: next, used },
    }
}

// Whether the record says what was told.
#[tactic(auto, unfolding(crate::specs::Playing::agreesb))]
fn agrees(said: Record, told: Told) -> bool
    ensures { Compares said told result }
{
    (said.refusal, said.answer) == (told.number, told.answer)
}

// The first records of a block, up to the first one that does not agree.
pub fn play(block: &[u8], count: usize, file: Held, table: &mut [u64]) -> Run
    requires { (length block.now ≡ block_bytes) × ((count ≤ most_records) × (Lent table.old × FileFits file)) }
    ensures is { played_in result table.new ≡ played (file_in file table.old) (records_from count (drop records_at block.now)) }
    ensures fits { FileFits result.file × (result.agreed ≤ count) }
{
    let mut held = file;
    for i in 0..count {
        let said = log_blocks::record_at(block, i);
        let told = hear(said, held, table);
        held = told.file;
        if !agrees(said, told) {
            return Run {
                agreed: i,
                file: held,
            };
        }
    }
    Run {
        agreed: count,
        file: held,
    }
}
