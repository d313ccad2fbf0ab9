//! When a whole program of words, with homes or without, meets a variable that has no word: only behind a call that brings fewer
//! arguments than its code has parameters. `specs/Ahead.antt` has what that means.
#![tactic(auto)]

pub mod laws;
