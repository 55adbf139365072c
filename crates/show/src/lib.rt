// What the test programs share: a lent table with its state as one value, the calls as values, what they answer in document 01's numbers,
// printing, and claims that are counted.
#![tactic(auto)]

pub mod answer;
pub mod case;
pub mod claim;
pub mod document;
pub mod entry;
pub mod scene;
pub mod spoken;
pub mod text;
pub mod words;
