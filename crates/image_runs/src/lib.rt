//! The run of an image that is made of items: their assembled code, static words as bytes with the addresses of the code's labels, the
//! address of the entry's label, and names. What is seen of it is what is seen of the items.
#![tactic(auto)]

pub mod laws;
