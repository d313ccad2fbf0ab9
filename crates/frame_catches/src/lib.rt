//! A CATCH is opened: its escape is made on the heap, and its frame is pushed. `specs/Laws.antt` has what the code comes to, which is in
//! `frame_dispatch`.
#![tactic(auto)]

pub mod laws;
