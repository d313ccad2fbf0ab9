//! The code of the blocks of a program with frames, written.
#![tactic(auto)]

mod closings;
mod operations;
mod written;

pub use crate::closings::end;
pub use crate::operations::plain;
pub use crate::written::{block, blocks};
