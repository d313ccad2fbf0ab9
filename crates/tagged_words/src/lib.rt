//! Fixnums and characters as tagged words: what arithmetic and comparison of the words, as programs of words do them, say of the numbers
//! and the codes. `specs/Tags.antt` has the words.
#![tactic(auto)]

pub mod laws;
