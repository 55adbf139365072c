// What any call answers, in document 01's numbers.
ghost use Rattle.std.specs.Prelude.{◌≡◌};
ghost use Rattle.show.specs.Answers.{of_number};

use space::answers::DONE;
use std::fmt;

#[derive(Clone, Copy, PartialEq, Eq)]
pub enum Answer {
    At(u64),
    Sections(u64),
    Done,
    Refused(u64),
}

impl fmt::Display for Answer {
    fn fmt<W: fmt::Write>(&self, f: &mut fmt::Formatter<W>) -> fmt::Result {
        match self {
            Answer::At(address) => write!(f, "at {address}"),
            Answer::Sections(count) => write!(f, "{count} sections"),
            Answer::Done => f.write_str("done"),
            Answer::Refused(number) => write!(f, "refused {number}"),
        }
    }
}

// What a call answers by its number: this where it is accepted, else the refusal.
pub fn of_number(number: u64, accepted: Answer) -> Answer
    ensures { result ≡ of_number number accepted }
{
    if number == DONE {
        return accepted;
    }
    Answer::Refused(number)
}
