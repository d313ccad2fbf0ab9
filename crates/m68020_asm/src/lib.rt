//! From instructions with labels to code of the MC68020, each branch with the smallest displacement that reaches its label.
//! `assemble` starts with the smallest widths and widens what does not reach, in sweeps over the items, until all fit.
//! The run of a list of items is defined here too: the assembled bytes run as the items do, as `laws` says.
#![tactic(auto)]

mod assembler;
mod emit;
mod item;
mod labels;
pub mod laws;
mod sizes;
mod sweeps;

pub use assembler::assemble;
pub use item::{Code, Item};
