// Straight lines of operations.
use crate::scopes::Scope;
use crate::sites::Site;
use frame_ir::{FrameEnd, FrameOp};

/// A block under way: its operations so far, and what is known behind them.
#[derive(Drop)]
pub struct Line {
    pub ops: Vec<FrameOp>,
    pub scope: Scope,
    pub site: Site,
}

/// How a block goes on behind a term: with the term at a place, or not at all.
#[derive(Drop)]
pub enum Step {
    Next(u32),
    Done(FrameEnd),
}
