//! Closures, objects and cells on the heap: what code makes them, and that the relation between frames and words holds with them.
//! `specs/Codes.antt` has the code, `specs/Groups.antt` the state behind a group of closures, `specs/Laws.antt` what the code comes to.
#![tactic(auto)]

pub mod laws;
