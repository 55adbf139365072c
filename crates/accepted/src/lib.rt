// What an accepted call leaves. This crate has no code: its specs/ say where document 01's rule puts a request, and its proofs/ that an accepted call
// of a sound table leaves the state and the table that its edited live pieces determine, which are sound together. Crates beside `demands` cite it.
#![tactic(auto)]
