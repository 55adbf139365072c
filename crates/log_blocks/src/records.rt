// A record of a log: one call with what the recorder was answered.
ghost use Rattle.std.specs.Prelude.{◌≡◌, length};
ghost use Rattle.log_blocks.specs.Records.{record_bytes, record_in, operationb, zerosb, recordb};

use little::{WORD_BYTES, get_part};
use words::get_word;

// Where the fields of a record start; the operation starts it.
const CODE_AT: usize = 1;

const REFUSAL_AT: usize = 2;

const ZEROS_AT: usize = 3;

const ADDRESS_AT: usize = 8;

const SIZE_AT: usize = ADDRESS_AT + WORD_BYTES;

const CHANGE_AT: usize = SIZE_AT + WORD_BYTES;

const ANSWER_AT: usize = CHANGE_AT + WORD_BYTES;

pub const RECORD_BYTES: usize = ANSWER_AT + WORD_BYTES;

// The operations, as numbers and not as an enum: a record is what its bytes say, so its operation may be none of these, and an enum would be made of
// the number at each place that now compares it.
pub const OPEN: u64 = 0;

pub const ALLOCATE: u64 = 1;

pub const RELEASE: u64 = 2;

pub const EXTEND: u64 = 3;

pub const SHORTEN: u64 = 4;

// The fields in their order. `code` is the type's, and `zeros` are the five bytes behind the refusal's number.
#[derive(Clone, Copy)]
pub struct Record {
    pub operation: u64,
    pub code: u64,
    pub refusal: u64,
    pub zeros: u64,
    pub address: u64,
    pub size: u64,
    pub change: u64,
    pub answer: u64,
}

pub fn record_in(bytes: &[u8]) -> Record
    requires { length bytes.now ≡ record_bytes }
    ensures { result ≡ record_in bytes.now }
{
    Record {
        operation: u64::from(bytes[0]),
        code: u64::from(bytes[CODE_AT]),
        refusal: u64::from(bytes[REFUSAL_AT]),
        zeros: get_part(bytes, ZEROS_AT, ADDRESS_AT),
        address: get_word(&bytes[ADDRESS_AT..SIZE_AT]),
        size: get_word(&bytes[SIZE_AT..CHANGE_AT]),
        change: get_word(&bytes[CHANGE_AT..ANSWER_AT]),
        answer: get_word(&bytes[ANSWER_AT..RECORD_BYTES]),
    }
}

// Whether a record may have this operation, as the first of the log or as a later one.
#[tactic(auto, unfolding(crate::specs::Records::operationb))]
fn is_operation(first: bool, operation: u64) -> bool
    ensures { result ≡ operationb first operation }
{
    if first {
        operation == OPEN
    } else {
        (ALLOCATE..=SHORTEN).contains(&operation)
    }
}

// Whether the fields that its operation does not use are 0.
#[tactic(auto, unfolding(crate::specs::Records::zerosb))]
fn has_zeros(said: Record) -> bool
    ensures { result ≡ zerosb said }
{
    said.zeros == 0
        && match said.operation {
            ALLOCATE => said.address == 0 && said.change == 0,
            RELEASE => said.code == 0 && said.answer == 0 && said.change == 0,
            _ => said.code == 0 && said.answer == 0,
        }
}

// Whether the record keeps the rules, as the first of the log or as a later one.
pub fn is_record(first: bool, said: Record) -> bool
    ensures { result ≡ recordb first said }
{
    is_operation(first, said.operation) && has_zeros(said)
}
