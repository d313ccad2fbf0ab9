//! What the relations of the passes come to: words that are selected, and items that are emitted, keep what the passes together ask of them
//! (`specs/Laws.antt`).
#![tactic(auto)]

pub mod laws;
