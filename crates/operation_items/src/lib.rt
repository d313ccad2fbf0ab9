//! The items of operations, written behind others: what the definitions of `lap_items` say of each operation, operand and home.
#![tactic(auto)]

mod arithmetic;
mod bytes;
pub mod homes;
pub mod operands;
pub mod operations;
mod services;
mod storage;
