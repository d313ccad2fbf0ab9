//! The passes after each other, from the core of a unit to an image: what each promises (`specs/Chains.antt`) makes the image keep the
//! meaning of the unit (`specs/Laws.antt`).
#![tactic(auto)]

pub mod laws;
