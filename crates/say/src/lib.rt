// What `filespace` prints, on standard output. What a write answers is not looked at. Here are bytes and words; the forms of an answer, a table, a map
// of the file and an inspection sheet have a file each.
#![tactic(auto)]

pub mod map;
pub mod report;
pub mod sheet;
pub mod tables;

ghost use Rattle.std.specs.Prelude.{Some};
ghost use Rattle.say.specs.Shown.{words_shown, bytes_shown};

use std::fmt;

// Bytes in hexadecimal, two digits to a byte.
#[derive(Clone, Copy)]
pub struct Hex<'a>(pub &'a [u8]);

impl fmt::Display for Hex<'_> {
    ghost output = { λ hex. Some (bytes_shown hex.0.now) };

    fn fmt<W: fmt::Write>(&self, f: &mut fmt::Formatter<W>) -> fmt::Result {
        for &byte in self.0 {
            write!(f, "{byte:02x}")?;
        }
        Ok(())
    }
}

// The words of a list, each behind a blank.
#[derive(Clone, Copy)]
pub struct Words<'a>(pub &'a [u64]);

impl fmt::Display for Words<'_> {
    ghost output = { λ words. Some (words_shown words.0.now) };

    fn fmt<W: fmt::Write>(&self, f: &mut fmt::Formatter<W>) -> fmt::Result {
        for word in self.0 {
            write!(f, " {word}")?;
        }
        Ok(())
    }
}
