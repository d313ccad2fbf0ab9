//! What is read by way of variables and static words: captured values, cells, globals; and the test of a value. `specs/Codes.antt` has the
//! code, `specs/Laws.antt` what it comes to.
#![tactic(auto)]

pub mod laws;
