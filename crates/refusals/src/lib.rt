// The numbered refusals, and why a call on a space is refused: one case for each refusal that the call can give, and its number. A call that is
// accepted answers `Ok`, with what it tells, and any other `Err` with its refusal.
#![tactic(auto)]

ghost use Rattle.std.specs.Prelude.{◌≡◌, ℕ};
ghost use Rattle.refusals.specs.AnswerNumbers.{number_by, open_refusal, allocate_refusal, not_named_number, release_refusal};
ghost use Rattle.refusals.specs.AnswerNumbers.{not_resized_number, resize_refusal, list_refusal};
ghost use Rattle.refusals.specs.NeverZero.{open_some, allocate_some, not_named_some, release_some, not_resized_some, resize_some, list_some};
ghost use Rattle.refusals.specs.declared.ResizeRefusal.TheVariants.{NotResized};

#[derive(Clone, Copy, Debug, PartialEq, Eq)]
pub enum OpenRefusal {
    OutOfRange,
}

#[derive(Clone, Copy, Debug, PartialEq, Eq)]
pub enum AllocateRefusal {
    NotSound,
    UnknownType,
    NoBytes,
    BeyondLimit,
    TableFull,
}

// Why an address and a size name no live piece: the address is at or beyond the end, lies in free space, lies inside a live piece and isn't its
// start, or is a live piece's start and the size differs.
#[derive(Clone, Copy, Debug, PartialEq, Eq)]
pub enum NotNamed {
    BeyondEnd,
    InFree,
    InsideLive,
    OtherSize,
}

#[derive(Clone, Copy, Debug, PartialEq, Eq)]
pub enum ReleaseRefusal {
    NotSound,
    NotNamed(NotNamed),
    TableFull,
}

// Why a named piece keeps its size: the first two are an extend's, the third is a shorten's.
#[derive(Clone, Copy, Debug, PartialEq, Eq)]
pub enum NotResized {
    NoRoomBehind,
    BeyondLimit,
    TooLittleLeft,
}

// Of an extend and of a shorten; `NoBytes` is a size or a change of 0.
#[derive(Clone, Copy, Debug, PartialEq, Eq)]
pub enum ResizeRefusal {
    NotSound,
    NoBytes,
    NotNamed(NotNamed),
    NotResized(NotResized),
    TableFull,
}

#[derive(Clone, Copy, Debug, PartialEq, Eq)]
pub enum ListRefusal {
    NotSound,
    UnknownManager,
    SliceTooShort,
}

impl From<NotResized> for ResizeRefusal {
    ghost from_gives = { λ why r. r ≡ NotResized why };

    fn from(why: NotResized) -> ResizeRefusal {
        ResizeRefusal::NotResized(why)
    }
}

// The number of each answer: 0 where the call is accepted. Each refusal's number stands once, under its name. 10 to 12 are a message's, and 10 a
// listing's too. No refusal has the number 7.
pub const DONE: u64 = 0;

pub const OUT_OF_RANGE: u64 = 1;

pub const NOT_SOUND: u64 = 2;

pub const UNKNOWN_CODE: u64 = 3;

pub const ZERO_ASKED: u64 = 4;

pub const BEYOND_LIMIT: u64 = 5;

pub const TABLE_FULL: u64 = 6;

pub const NO_ROOM_BEHIND: u64 = 8;

pub const TOO_LITTLE_LEFT: u64 = 9;

pub const SLICE_TOO_SHORT: u64 = 10;

pub const OTHER_VERSION: u64 = 11;

pub const BROKEN_FIELD: u64 = 12;

pub const BEYOND_END: u64 = 13;

pub const IN_FREE: u64 = 14;

pub const INSIDE_LIVE: u64 = 15;

pub const OTHER_SIZE: u64 = 16;

// The address answer of a refused call.
pub const NO_ADDRESS: u64 = 18446744073709551615;

// A refusal has one of these numbers, and never the 0 of a call that is accepted.
pub trait Refusal: Copy {
    ghost by_number: { Self → ℕ };

    fn number(self) -> u64
        ensures { result ≡ by_number self };

    ghost never_0: { (refusal : Self) → by_number refusal ≡ 0 → ⊥ };
}

impl Refusal for OpenRefusal {
    ghost by_number = { open_refusal };

    ghost never_0 = { open_some };

    fn number(self) -> u64 {
        match self {
            OpenRefusal::OutOfRange => OUT_OF_RANGE,
        }
    }
}

impl Refusal for AllocateRefusal {
    ghost by_number = { allocate_refusal };

    ghost never_0 = { allocate_some };

    fn number(self) -> u64 {
        match self {
            AllocateRefusal::NotSound => NOT_SOUND,
            AllocateRefusal::UnknownType => UNKNOWN_CODE,
            AllocateRefusal::NoBytes => ZERO_ASKED,
            AllocateRefusal::BeyondLimit => BEYOND_LIMIT,
            AllocateRefusal::TableFull => TABLE_FULL,
        }
    }
}

impl Refusal for NotNamed {
    ghost by_number = { not_named_number };

    ghost never_0 = { not_named_some };

    fn number(self) -> u64 {
        match self {
            NotNamed::BeyondEnd => BEYOND_END,
            NotNamed::InFree => IN_FREE,
            NotNamed::InsideLive => INSIDE_LIVE,
            NotNamed::OtherSize => OTHER_SIZE,
        }
    }
}

impl Refusal for ReleaseRefusal {
    ghost by_number = { release_refusal };

    ghost never_0 = { release_some };

    fn number(self) -> u64 {
        match self {
            ReleaseRefusal::NotSound => NOT_SOUND,
            ReleaseRefusal::NotNamed(why) => why.number(),
            ReleaseRefusal::TableFull => TABLE_FULL,
        }
    }
}

impl Refusal for NotResized {
    ghost by_number = { not_resized_number };

    ghost never_0 = { not_resized_some };

    fn number(self) -> u64 {
        match self {
            NotResized::NoRoomBehind => NO_ROOM_BEHIND,
            NotResized::BeyondLimit => BEYOND_LIMIT,
            NotResized::TooLittleLeft => TOO_LITTLE_LEFT,
        }
    }
}

impl Refusal for ResizeRefusal {
    ghost by_number = { resize_refusal };

    ghost never_0 = { resize_some };

    fn number(self) -> u64 {
        match self {
            ResizeRefusal::NotSound => NOT_SOUND,
            ResizeRefusal::NoBytes => ZERO_ASKED,
            ResizeRefusal::NotNamed(why) => why.number(),
            ResizeRefusal::NotResized(why) => why.number(),
            ResizeRefusal::TableFull => TABLE_FULL,
        }
    }
}

impl Refusal for ListRefusal {
    ghost by_number = { list_refusal };

    ghost never_0 = { list_some };

    fn number(self) -> u64 {
        match self {
            ListRefusal::NotSound => NOT_SOUND,
            ListRefusal::UnknownManager => UNKNOWN_CODE,
            ListRefusal::SliceTooShort => SLICE_TOO_SHORT,
        }
    }
}

// The number of an answer.
pub fn number_of<T: Copy, E: Refusal>(answer: Result<T, E>) -> u64
    ensures { result ≡ number_by E.by_number answer }
{
    match answer {
        Ok(_) => DONE,
        Err(refusal) => refusal.number(),
    }
}
