//! That the items of the ends of blocks lead where the ends do, so the items of a whole program run as the program does. It has no code.
#![tactic(auto)]

pub mod laws;
