//! That the items of a whole program of words with homes run as the words do, where those of each block's end do. It has no code.
#![tactic(auto)]

pub mod laws;
