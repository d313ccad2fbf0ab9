//! What the data of a text expand to, and what is refused in them, as definitions: what a unit defines (`specs/Units.antt`), what nodes
//! are the core of its forms (`specs/Meaning.antt`), and its refusals with the first of them (`specs/Refusals.antt`).
#![tactic(auto)]

pub mod laws;
