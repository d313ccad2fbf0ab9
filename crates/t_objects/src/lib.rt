//! The words that no program can bind, what a datum is as a list, and the operations that a unit defines.
//! The words have their table in `specs/Words.antt`, lists and names in `specs/Lists.antt`, the defining forms of operations in
//! `specs/Operations.antt`.
#![tactic(auto)]

mod operations;
mod words;

pub use crate::operations::{OpTable, resolve_ops};
pub use crate::words::{Word, word_of};
