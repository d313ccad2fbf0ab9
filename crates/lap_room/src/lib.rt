//! What is reported as left where the heap or the stack is full.
#![tactic(auto)]

pub mod laws;
