//! Tools that show what an image holds: its listing, a line for each instruction, with address, words, mnemonic and operands,
//! as the MC68020 User's Manual writes them. What a listing is, the specification `Listing` says.
#![tactic(auto)]

mod digits;
mod instruction;
pub mod laws;
mod lines;
mod operand;

pub use lines::listing;
