//! The instructions of a program of words whose variables have homes, as definitions: a table of the items of each operation and each
//! end by a few helpers for operands and homes, and the items of a whole program as a relation by blocks.
#![tactic(auto)]

pub mod laws;
