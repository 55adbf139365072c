// Claims, each a sentence. One that holds prints `ok   CLAIM`; another prints `FAIL CLAIM: expected X, found Y`. They are counted.
ghost use Rattle.std.specs.Prelude.{◌≡◌, Bool, true, false};
ghost use Rattle.show.specs.Claims.{one_more, no_claims, counted, Tells};

use crate::text::say;
use crate::words;
use std::fmt;
use std::io::Stdout;

#[derive(Clone, Copy)]
pub struct Tally {
    pub claims: u64,
    pub failures: u64,
}

// One more, up to the largest number.
pub fn one_more(n: u64) -> u64
    ensures { result ≡ one_more n }
{
    n.saturating_add(1)
}

// How the line of a claim begins.
pub fn say_verdict(stdout: Stdout, held: bool) {
    say(stdout, if held { b"ok   " } else { b"FAIL " });
}

// The claim: the whole line where it holds, else up to what was expected.
pub fn say_claim(stdout: Stdout, held: bool, claim: &[u8]) {
    say_verdict(stdout, held);
    say(stdout, claim);
    say(stdout, if held { b"\n" } else { b": expected " });
}

impl Tally {
    pub fn none() -> Tally
        ensures { result ≡ no_claims }
    {
        Tally {
            claims: 0,
            failures: 0,
        }
    }

    pub fn held(self) -> Tally
        ensures { result ≡ counted self true }
    {
        Tally {
            claims: one_more(self.claims),
            failures: self.failures,
        }
    }

    pub fn failed(self) -> Tally
        ensures { result ≡ counted self false }
    {
        Tally {
            claims: one_more(self.claims),
            failures: one_more(self.failures),
        }
    }

    pub fn count(self, held: bool) -> Tally
        ensures { result ≡ counted self held }
    {
        if held {
            return self.held();
        }
        self.failed()
    }

    // That a number, or an answer, is this one.
    pub fn equal<T: PartialEq + fmt::Display + Copy>(
        self,
        stdout: Stdout,
        claim: &[u8],
        expected: T,
        found: T,
    ) -> Tally
        ensures { result ≡ counted self (T.eq expected found) }
    {
        let held = expected == found;
        say_claim(stdout, held, claim);
        if !held {
            let _ = println!(stdout; "{expected}, found {found}");
        }
        self.count(held)
    }

    // That the words are these.
    pub fn words(self, stdout: Stdout, claim: &[u8], expected: &[u64], found: &[u64]) -> Tally
        ensures { (h : Bool) → Tells h (expected.now ≡ found.now) → result ≡ counted self h }
    {
        let held = expected == found;
        say_claim(stdout, held, claim);
        if !held {
            words::say_difference(stdout, expected, found);
        }
        self.count(held)
    }

    // The last line of a program.
    pub fn report(self, stdout: Stdout, program: &[u8]) {
        say(stdout, program);
        let _ = println!(stdout; ": {} claims, {} failures", self.claims, self.failures);
    }
}
