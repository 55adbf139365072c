// What is proved of the File Space Info message. This crate has no code: specs/Promises.antt states what document 01 says of read, rest and write,
// and its proofs/ that the calls' own meanings (message/specs/Message.antt) are that. `demands` signs it.
#![tactic(auto)]
