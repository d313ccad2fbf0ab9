//! Conversion: a program in continuation-passing style that stands for a unit.
#![tactic(auto)]

mod conversion;
mod nodes;
mod operands;
mod ready;
mod terms;
mod top_forms;
mod top_lambdas;
mod variables;

pub use crate::conversion::{Conversion, Procedure};
pub use crate::top_forms::forms;
pub use crate::top_lambdas::root;
