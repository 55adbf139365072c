// All that the customer signs on, in one record: specs/Signed.antt. This crate has no code; proofs/Signed.antt is the record's one proof.
#![tactic(auto)]
