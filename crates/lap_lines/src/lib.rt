//! Each operation of a program of words with homes, and its items: they come to where the operation comes to.
#![tactic(auto)]

pub mod laws;
