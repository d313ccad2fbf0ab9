//! A step machine for a subset of the MC68020: its registers, its storage, and what each instruction does.
//! The definitions of `specs` are set out as the pages of the MC68020 User's Manual: operands, result, condition codes.
//! A step is these definitions, and a stop changes nothing.
#![tactic(auto)]

mod arithmetic;
mod condition_codes;
mod control;
mod instruction;
pub mod laws;
mod logic;
mod machine;
mod moves;
pub mod operand;
pub mod registers;
pub mod storage;

pub use machine::{Machine, Sizes, Step};
pub use registers::{Effect, Flags, Next, Registers, Why};
