//! Assigned variables become cells (`specs/AssignedCells.antt`), and what follows from that (`specs/CellLaws.antt`).
#![tactic(auto)]

mod assigned;
mod conversion;
pub mod laws;

pub use crate::conversion::cells;
