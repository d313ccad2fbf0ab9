//! From programs of words whose variables have homes to items of code: `emit` writes what the definitions of `lap_items` say, in one
//! walk over the blocks.
#![tactic(auto)]

mod ends;
mod moves;
mod program;
mod taken;

pub use crate::program::emit;
