//! Code of words as trees: lines with the blocks to which they turn, wherever a program has them, and where a stamped run of a program
//! is led by them. `specs/Trees.antt` has the trees, `specs/Leads.antt` what it means that one leads somewhere.
#![tactic(auto)]

pub mod laws;
