//! Values and data of code with frames as tagged words: what stands in static words and on the heap, the words of values, and what is
//! read by way of them. `specs/Layouts.antt` has the static words, `specs/ValueWords.antt` the words, `specs/Holding.antt` the
//! relation between a state of code with frames and the storage of a program of words.
#![tactic(auto)]

pub mod laws;
