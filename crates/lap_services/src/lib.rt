//! Each service that a program of words with homes asks for, and its items: the same bytes are put, and the run ends alike.
#![tactic(auto)]

pub mod laws;
