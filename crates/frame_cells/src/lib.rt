//! Cells get values. `specs/Laws.antt` has the code and what it comes to.
#![tactic(auto)]

pub mod laws;
