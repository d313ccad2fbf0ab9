//! What a program with frames names that stands in static words: closures of blocks that capture nothing, builtins, operations, strings, symbols,
//! quoted pairs and templates.
#![tactic(auto)]

mod naming;
mod things;

pub use crate::naming::{is_procedure, named, push_const};
pub use crate::things::Thing;
