//! Long words, numbers of 32 bits, and where the regions of storage start: what the machine and programs of words have in common.
//! `specs/Words.antt` has the words.
#![tactic(auto)]

pub mod regions;

pub use crate::regions::{CODE_START, HEAP_START, STACK_START, STATICS_START};
