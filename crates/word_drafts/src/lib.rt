//! Writes programs of words, line by line and block by block, so that trees of lines are spelled. `specs/Drafts.antt` says what is written so far and
//! what a call writes.
#![tactic(auto)]

mod drafts;
mod heads;
mod macros;

pub use crate::drafts::Draft;
