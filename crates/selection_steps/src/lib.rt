//! A program of words that is selected for a program with frames goes with it, step by step: `specs/Settings.antt` has what is given, `specs/Related.antt` where
//! both stand, `specs/Led.antt` what it means that a step of the frames is led by steps of the words.
#![tactic(auto)]
