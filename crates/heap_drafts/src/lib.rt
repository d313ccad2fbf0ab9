//! The code of closures, cells and objects that are made, and the slots of frames.
#![tactic(auto)]

mod groups;
mod records;
mod sizes;
mod slots;
mod things;

pub use crate::groups::{closures, group};
pub use crate::slots::slots_of;
pub use crate::things::{cell, object};
