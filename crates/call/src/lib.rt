// A call on an open file as one value, and what is recorded of it: its number, and an allocation's address.
#![tactic(auto)]

ghost use Rattle.std.specs.Prelude.{◌≡◌};
ghost use Rattle.refusals.specs.AnswerNumbers.{number_by};
ghost use Rattle.call.specs.Answered.{answered, answer_said};

use refusals::{NO_ADDRESS, Refusal, number_of};
use space::Space;
use space::answers::Answered;

// What a caller can ask of an open file: a type's code and a size; a piece by address and size; and by how much it changes.
#[derive(Clone, Copy)]
pub enum Call {
    Allocate(u64, u64),
    Release(u64, u64),
    Extend(u64, u64, u64),
    Shorten(u64, u64, u64),
}

// The state then, the call's number, and its answer: an allocation's address, 2^64 - 1 where it is refused, and 0 of the other calls. Numbers, as a
// log's record holds them.
#[derive(Clone, Copy)]
pub struct Told {
    pub space: Space,
    pub number: u64,
    pub answer: u64,
}

// What is recorded of an answer.
fn recorded<T: Copy, E: Refusal>(done: Answered<T, E>, answer: u64) -> Told
    ensures { result ≡ record { space = done.space; number = number_by E.by_number done.answer; answer = answer } }
{
    Told {
        space: done.space,
        number: number_of(done.answer),
        answer,
    }
}

pub fn tell(space: Space, table: &mut [u64], call: Call) -> Told
    ensures { answer_said result table.new ≡ answered call space table.old }
{
    match call {
        Call::Allocate(code, size) => {
            let done = space.allocate(table, code, size);
            let address = done.answer.unwrap_or(NO_ADDRESS);
            recorded(done, address)
        }
        Call::Release(address, size) => recorded(space.release(table, address, size), 0),
        Call::Extend(address, size, by) => recorded(space.extend(table, address, size, by), 0),
        Call::Shorten(address, size, by) => recorded(space.shorten(table, address, size, by), 0),
    }
}
