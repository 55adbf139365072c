// What a File Space Info message holds and what a call on one answers: the fields with their places in bytes, the answers with their numbers,
// and the rules that the fields keep (legal.rt).
#![tactic(auto)]

pub mod legal;

ghost use Rattle.std.specs.Prelude.{◌≡◌};
ghost use Rattle.message_fields.specs.Fields.{number_of, no_fields, read_said, length_of, follows_at};

use refusals::{BROKEN_FIELD, DONE, OTHER_VERSION, SLICE_TOO_SHORT};

// Where each field of the head starts: it ends where the next one starts, and the last one where the head does.
pub const VERSION_AT: usize = 0;

pub const STRATEGY_AT: usize = 1;

pub const PERSIST_AT: usize = 2;

pub const THRESHOLD_AT: usize = 3;

pub const PAGE_AT: usize = 11;

pub const PAGE_END_AT: usize = 19;

pub const EOA_AT: usize = 21;

pub const HEAD_LENGTH: usize = 29;

// Where the addresses start that a message with persistence has behind its head: those of the small managers, and of the large ones.
pub const SMALL_AT: usize = HEAD_LENGTH;

pub const LARGE_AT: usize = 77;

pub const FULL_LENGTH: usize = 125;

// Of the small managers and of the large ones there is an address for each type, a word each.
pub const TYPES: usize = 6;

// No message is shorter than this.
pub const LEAST_LENGTH: usize = HEAD_LENGTH;

pub const VERSION: u8 = 1;

// The fields but for the version. The type order is superblock, B-tree, raw, global heap, local heap, object header.
#[derive(Clone, Copy, Debug, PartialEq, Eq)]
pub struct Fields {
    pub strategy: u8,
    pub persist: u8,
    pub threshold: u64,
    pub page: u64,
    pub page_end: u16,
    pub eoa: u64,
    pub small: [u64; TYPES],
    pub large: [u64; TYPES],
}

// Why a message is refused.
#[derive(Clone, Copy, Debug, PartialEq, Eq)]
pub enum Refusal {
    Short,
    Version,
    Field,
}

// Document 01's number for an answer: of a read with its fields, or of a write.
pub fn number_of<T: Copy>(answer: Result<T, Refusal>) -> u64
    ensures { result ≡ number_of answer }
{
    match answer {
        Ok(_) => DONE,
        Err(Refusal::Short) => SLICE_TOO_SHORT,
        Err(Refusal::Version) => OTHER_VERSION,
        Err(Refusal::Field) => BROKEN_FIELD,
    }
}

// How long the message of the fields is: without persistence it ends where its head does.
#[tactic(auto, unfolding(crate::specs::Fields::length_of, crate::specs::Fields::address_count))]
pub fn length_of(fields: Fields) -> usize
    ensures { result ≡ length_of fields }
{
    if fields.persist == 0 {
        HEAD_LENGTH
    } else {
        FULL_LENGTH
    }
}

// Where the part behind the message starts: at the front where the message is refused.
#[tactic(auto, unfolding(crate::specs::Fields::follows_at))]
pub fn follows_at(message: Result<Fields, Refusal>) -> usize
    ensures { result ≡ follows_at (read_said message) }
{
    match message {
        Ok(fields) => length_of(fields),
        Err(_) => 0,
    }
}

// The fields of a refused message: all 0.
#[tactic(auto, unfolding(crate::specs::Fields::no_fields))]
pub fn no_fields() -> Fields
    ensures { result ≡ no_fields }
{
    Fields {
        strategy: 0,
        persist: 0,
        threshold: 0,
        page: 0,
        page_end: 0,
        eoa: 0,
        small: [0; TYPES],
        large: [0; TYPES],
    }
}
