//! The run of a program of words that is selected for a program with frames keeps the run of that program, as long as there is room: `specs/Laws.antt`.
#![tactic(auto)]

pub mod laws;
