// What a call makes of the live pieces. This crate has no code: its specs/ say how the list of live pieces is edited, and its proofs/ that an
// edit changes a table only between two neighbouring live pieces and leaves it sound.
#![tactic(auto)]
