// A splice of a table: new entries, told by a few numbers, take the place of those between two entries that stay.
#![tactic(auto)]

pub mod gap;
pub mod new;
pub mod splice;
