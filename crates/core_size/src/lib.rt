//! How large the largest form of a unit is. The pairs and atoms of quoted data count; those of each quoted pair are counted once, in order.
#![tactic(auto)]

mod sizes;

pub use crate::sizes::largest;
