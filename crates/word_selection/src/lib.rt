//! What it means that a program of words is selected for a program with frames: `specs/Codes.antt` has the code of each operation and of each
//! end, `specs/Selections.antt` the relation of both programs.
#![tactic(auto)]
