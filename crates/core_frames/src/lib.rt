//! The nodes of a core that are under way, and what becomes of a node once its parts are made.
#![tactic(auto)]

mod build;
mod frames;

pub use crate::build::{Done, Fresh, NO_VARS, leaf, node};
pub use crate::frames::{FrameStack, NodeState};
