// A block of a log: its number, the count of its records and three zero bytes, the records, zeros, and the check.
#![tactic(auto)]

pub mod records;

ghost use Rattle.std.specs.Prelude.{◌≡◌, ◌+◌, ◌*◌, ◌≤◌, ◌<◌, eqb, length, take, drop};
ghost use Rattle.std.specs.List.{list_all};
ghost use Rattle.log_blocks.specs.Blocks.{count_in, records_at, most_records, blockb};
ghost use Rattle.log_blocks.specs.Records.{record_bytes, record_in, records_from, recordsb};
ghost use Rattle.log_check.specs.Check.{block_bytes};

use little::get_part;
use log_check::{BLOCK_BYTES, CHECK_AT};
use records::{RECORD_BYTES, Record};

// Where the fields of a block start; the number starts it.
const COUNT_AT: usize = 4;

const ZEROS_AT: usize = 5;

const RECORDS_AT: usize = 8;

// The records of a full block.
pub const MOST_RECORDS: usize = 12;

// How many records the block has.
pub fn count(block: &[u8]) -> usize
    requires { length block.now ≡ block_bytes }
    ensures { result ≡ count_in block.now }
{
    usize::from(block[COUNT_AT])
}

// Its record at a place, from 0.
pub fn record_at(block: &[u8], place: usize) -> Record
    requires { (length block.now ≡ block_bytes) × (place < most_records) }
    ensures { result ≡ record_in (take record_bytes (drop (records_at + place * record_bytes) block.now)) }
{
    let at = RECORDS_AT + place * RECORD_BYTES;
    records::record_in(&block[at..at + RECORD_BYTES])
}

fn is_zero(bytes: &[u8]) -> bool
    ensures { result ≡ list_all (λ v. eqb v 0) bytes.now }
{
    bytes.iter().all(|byte| *byte == 0)
}

// Whether its first records keep the rules, with that of block 0 as the first of the log.
fn are_records(first: bool, block: &[u8], count: usize) -> bool
    requires { (length block.now ≡ block_bytes) × (count ≤ most_records) }
    ensures { result ≡ recordsb first (records_from count (drop records_at block.now)) }
{
    for i in 0..count {
        if !records::is_record(first && i == 0, record_at(block, i)) {
            return false;
        }
    }
    true
}

// Whether the bytes are a block with this number, whatever follows it.
#[tactic(auto, using(crate::proofs::BlockLaws::other_number))]
pub fn is_block(number: u64, block: &[u8]) -> bool
    ensures { result ≡ blockb number block.now }
{
    if block.len() != BLOCK_BYTES {
        return false;
    }
    let told = get_part(block, 0, COUNT_AT);
    if told != number {
        return false;
    }
    let count = count(block);
    if count < 1 {
        return false;
    }
    if MOST_RECORDS < count {
        return false;
    }
    if get_part(block, ZEROS_AT, RECORDS_AT) != 0 {
        return false;
    }
    if !are_records(number == 0, block, count) {
        return false;
    }
    let behind = RECORDS_AT + count * RECORD_BYTES;
    if !is_zero(&block[behind..CHECK_AT]) {
        return false;
    }
    log_check::is_checked(block)
}
