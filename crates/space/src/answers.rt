// What the calls answer, and the new state with it. The refusals and their numbers are those of `refusals`.
ghost use Rattle.std.specs.Prelude.{◌≡◌};

use crate::Space;
pub use refusals::{
    AllocateRefusal, BEYOND_END, BEYOND_LIMIT, DONE, IN_FREE, INSIDE_LIVE, ListRefusal, NO_ADDRESS,
    NO_ROOM_BEHIND, NOT_SOUND, NotNamed, NotResized, OTHER_SIZE, OUT_OF_RANGE, OpenRefusal,
    Refusal, ReleaseRefusal, ResizeRefusal, SLICE_TOO_SHORT, TABLE_FULL, TOO_LITTLE_LEFT,
    UNKNOWN_CODE, ZERO_ASKED, number_of,
};

// The new state with the answer: what an accepted call tells, or the refusal.
#[derive(Clone, Copy, PartialEq, Eq)]
pub struct Answered<T, E> {
    pub space: Space,
    pub answer: Result<T, E>,
}

pub type Opened = Answered<(), OpenRefusal>;

// The address of the new piece.
pub type Allocated = Answered<u64, AllocateRefusal>;

pub type Released = Answered<(), ReleaseRefusal>;

pub type Resized = Answered<(), ResizeRefusal>;

// How many sections there are.
pub type Listed = Answered<u64, ListRefusal>;

impl Space {
    // This state, with an answer.
    pub fn answers<T, E>(self, answer: Result<T, E>) -> Answered<T, E>
        ensures { result ≡ record { space = self; answer = answer } }
    {
        Answered {
            space: self,
            answer,
        }
    }
}
