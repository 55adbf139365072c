// What request E6 says of a log and of its judgement, with its proofs. No code.
#![tactic(auto)]
