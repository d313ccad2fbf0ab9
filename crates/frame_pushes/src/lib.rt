//! Frames that are pushed: the words of a new frame are stored one by one, and the relation between frames and words holds with one frame more.
//! `specs/Laws.antt` has what a push comes to.
#![tactic(auto)]

pub mod laws;
