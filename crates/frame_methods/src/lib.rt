//! Entries of methods, whose blocks get the operands alone, the object as the first one. `specs/Laws.antt` has the code and what it comes to.
#![tactic(auto)]

pub mod laws;
