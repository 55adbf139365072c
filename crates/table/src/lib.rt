// What a table means. This crate has no code: its specs/ say what a sound table is, and its proofs/ that the three ways to say it agree.
#![tactic(auto)]
