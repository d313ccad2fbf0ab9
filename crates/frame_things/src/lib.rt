//! Cells and objects are made on the heap. `specs/Codes.antt` has the code, `specs/Laws.antt` what it comes to.
#![tactic(auto)]

pub mod laws;
