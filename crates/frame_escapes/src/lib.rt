//! Escapes that end: a CATCH is closed, or an escape is called and ends all inner ones. `specs/Laws.antt` has what the code comes to, which is in
//! `frame_dispatch`.
#![tactic(auto)]

pub mod laws;
