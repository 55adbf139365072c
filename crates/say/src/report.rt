// The forms of an answer.
use space::Space;
use space::answers::{Allocated, Answered, DONE, NO_ADDRESS, Refusal, number_of};
use std::fmt;
use std::io::Stdout;

// Done or refused, by the number.
#[derive(Clone, Copy)]
pub struct Verdict(pub u64);

impl fmt::Display for Verdict {
    fn fmt<W: fmt::Write>(&self, f: &mut fmt::Formatter<W>) -> fmt::Result {
        match self.0 {
            DONE => f.write_str("done"),
            number => write!(f, "refused {number}"),
        }
    }
}

// What is wrong with a line, as bytes that are printed as they stand.
pub fn wrong(stdout: Stdout, line: u64, what: &[u8]) {
    let _ = print!(stdout; "line {line}: ");
    let _ = stdout.write_all(what);
    let _ = println!(stdout);
}

// What is wrong with a line, as a value that says it.
pub fn fault(stdout: Stdout, line: u64, what: impl fmt::Display + Drop) {
    let _ = println!(stdout; "line {line}: {what}");
}

// The address at which a piece was placed, where the number is that of an accepted call; else the refusal. Then the state that the call handed back.
pub fn placed(stdout: Stdout, space: Space, number: u64, address: u64) {
    if number == DONE {
        let _ = println!(stdout; "at {address}; end {}; {} entries", space.end, space.count);
        return;
    }
    told(stdout, space, number);
}

// Done or refused, by the number, and the state.
pub fn told(stdout: Stdout, space: Space, number: u64) {
    let _ = println!(stdout;
        "{}; end {}; {} entries",
        Verdict(number),
        space.end,
        space.count
    );
}

// What an allocation answers.
pub fn allocated(stdout: Stdout, done: Allocated) {
    let address = done.answer.unwrap_or(NO_ADDRESS);
    placed(stdout, done.space, number_of(done.answer), address);
}

// What any other call answers.
pub fn answered<T: Copy, E: Refusal>(stdout: Stdout, done: Answered<T, E>) {
    told(stdout, done.space, number_of(done.answer));
}
