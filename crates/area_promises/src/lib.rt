// What request E5 says of the calls over an area: specs/Areas.antt, and proofs/Areas.antt its proofs. This crate has no code.
#![tactic(auto)]
