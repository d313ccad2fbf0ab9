//! The variables that are free in each term of a program in continuation-passing style, and those that each term needs.
#![tactic(auto)]

mod continuations;
mod gathering;
pub mod laws;
mod lives;
mod needs;
mod number_set;
mod operands;

pub use crate::lives::{Free, free_variables, live};
pub use crate::needs::{Needs, needed_variables};
