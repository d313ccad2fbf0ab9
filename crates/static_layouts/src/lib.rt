//! The layout of static words in which the things that were gathered stand, and what it gives to whoever selects words for a program with frames. `specs/Layouts.antt`
//! has the layout and the law.
#![tactic(auto)]

pub mod laws;
