//! Tests of the base crates, the primitives and the core: rows that no clause shows, and each call that takes memory with
//! memory at hand. A unit that is whole stands here too.
#![tactic(auto)]

#[cfg(test)]
mod base_rows;
#[cfg(test)]
mod core_rows;
#[cfg(test)]
mod primitive_rows;
#[cfg(test)]
mod units;
