// Each of the first three bytes of a good message is given each of its values.
ghost use Rattle.std.specs.Prelude.{◌<◌};

use crate::cases::{BLOCK, FULL, head, with_byte};
use crate::tell;
use crate::tell::{agree, end, finish, item, labelled};
use show::claim::{Tally, say_verdict};
use show::text::say;
use std::io::Stdout;

// A byte of the message, which a label names: its values from `first` to `last` are legal, and every other is refused with this number.
#[derive(Clone, Copy)]
struct Byte {
    at: usize,
    name: &'static [u8],
    first: u8,
    last: u8,
    refusal: u64,
    ghost inside: { at < 200 },
}

// What read answers for the good message with another byte at a place.
fn answer_with(good: &[u8; BLOCK], at: usize, byte: u8) -> u64
    requires { at < 200 }
{
    let bytes = with_byte(good, at, byte);
    message::number_of(message::read(head(&bytes, FULL)))
}

impl Byte {
    // What read is to answer for a value.
    fn due(self, value: u8) -> u64 {
        if (self.first..=self.last).contains(&value) {
            0
        } else {
            self.refusal
        }
    }

    // Whether a value is answered so. One that is not is printed.
    fn is_due(self, stdout: Stdout, good: &[u8; BLOCK], value: u8) -> bool {
        let found = answer_with(good, self.at, value);
        if agree(stdout, tell::READ, self.due(value), found) {
            return true;
        }
        labelled(stdout, tell::VALUE, u64::from(value));
        end(stdout);
        false
    }

    // That every value is.
    fn damage(self, stdout: Stdout, t: Tally, good: &[u8; BLOCK]) -> Tally {
        let held = (0..=u8::MAX).all(|value| self.is_due(stdout, good, value));
        say_verdict(stdout, held);
        say(stdout, self.name);
        item(stdout, tell::FROM, u64::from(self.first));
        item(stdout, tell::TO, u64::from(self.last));
        item(stdout, tell::OTHERS, self.refusal);
        finish(stdout, t, held)
    }
}

// The good message has persist 1 and every address all ones.
pub fn damages(stdout: Stdout, t: Tally, good: &[u8; BLOCK]) -> Tally {
    let bytes = [
        Byte {
            at: 0,
            name: tell::BYTE_0,
            first: 1,
            last: 1,
            refusal: 11,
        },
        Byte {
            at: 1,
            name: tell::BYTE_1,
            first: 0,
            last: 3,
            refusal: 12,
        },
        Byte {
            at: 2,
            name: tell::BYTE_2,
            first: 0,
            last: 1,
            refusal: 12,
        },
    ];
    bytes.iter().fold(t, |t, byte| byte.damage(stdout, t, good))
}
