//! The start of a program of words with homes, and the machine at boot: the one stands for the other.
#![tactic(auto)]

pub mod laws;
