// The one way to change a table: the entries between the former and the next live piece are replaced by those that the new live pieces
// determine. A plan is made first and writes nothing; one splice then writes it, in place.
#![tactic(auto)]

pub mod around;
pub mod plan;
