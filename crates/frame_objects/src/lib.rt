//! Calls of objects, which pass them on, and of what is no procedure. `specs/Laws.antt` has the code and what it comes to.
#![tactic(auto)]

pub mod laws;
