//! How many words the stack of a program of words has for certain.
#![tactic(auto)]

pub mod laws;
