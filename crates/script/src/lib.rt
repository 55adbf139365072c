// Scripts as text: their lines, and the words of a line. Every function works on slices, and none reads or writes anything else.
#![tactic(auto)]

pub mod words;
