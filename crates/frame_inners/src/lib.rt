//! Closures in frames: what they captured is read, and they are called where they aren't known. `specs/Laws.antt` has what the code comes to.
#![tactic(auto)]

pub mod laws;
