// What the customer signs on of the calls with a summary. This crate has no code: specs/Summaries.antt ties each of these calls to the one without a
// summary, and by that tie states of them what `demands` states of those. All that is signed is one record, in `signed`.
#![tactic(auto)]
