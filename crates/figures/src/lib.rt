// Figures in text: the numbers and bytes that a word says, and text and numbers laid into a lent buffer. Every function works on slices, and
// none reads or writes anything else. How a number is printed is `io::decimal` in a buffer, and std's `Display` elsewhere; specs/Decimal.antt states
// that they write the same digits and that what they print is read back, and specs/Signed.antt that a sign and what `io::decimal` prints of a distance
// from 0 are, and what `Display` writes of a signed number.
#![tactic(auto)]

pub mod bytes;
pub mod numbers;
pub mod signed;
pub mod text;
