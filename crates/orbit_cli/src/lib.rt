//! The command line: the words that are a command, what it does over a folder and two sinks, and what is printed of it. The
//! contract of `orbit` is the promise of the whole program.
#![tactic(auto)]

mod commands;
mod image;
mod lines;
mod prepare;
mod refusal;
mod report;
mod status;
mod top;
mod words;

pub use status::Status;
pub use top::orbit;
