// Document 01's own rules for allocating, releasing, extending and shortening, read literally. This crate has no code: its specs/ say the rules
// as steps over the entries of a table, and its proofs/ that they give the table and the end which the calls promise.
#![tactic(auto)]
