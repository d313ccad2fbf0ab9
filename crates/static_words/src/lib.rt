//! The static words of a program with frames, written: those in front that runs change, and then the words of each thing.
#![tactic(auto)]

pub mod laws;
mod templates;
mod texts;
mod things;
mod writing;

pub use crate::things::EntryBlocks;
