//! From the bytes of a text to the bytes of its image: the text is read, its forms are expanded, and a unit within the limits is
//! compiled. So far the units that are built are those whose forms are fixnums and sums. Their code is put out node by node.
#![tactic(auto)]

mod build;
mod emit;
mod fault;
pub mod laws;
mod term;
mod unit;

pub use build::{compile, read_core};
pub use fault::BuildFault;
