//! Which things stand in the static words of a program with frames, each once and at its place: what the program names, the print names of its
//! symbols, the parts of its quoted pairs and the operations of its templates.
#![tactic(auto)]

mod gathering;
mod parts;
mod sizes;
mod statics;
mod tables;

pub use crate::gathering::gather;
pub use crate::statics::Statics;
