//! Frames that lay out a program in continuation-passing style: each LAMBDA becomes a block for its code and one for its body, each
//! continuation that waits the block to which a call returns (Kranz 1988, on code generation).
#![tactic(auto)]

mod blocks;
mod labels;
mod layouts;
mod templates;

pub use crate::layouts::layout;
