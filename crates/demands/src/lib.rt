// What the customer signs on of the calls. This crate has no code: its specs/ state the customer's demands about the calls' own meanings, and its
// proofs/ prove them. Read specs/Demands.antt first. All that is signed is one record, in `signed`.
#![tactic(auto)]
