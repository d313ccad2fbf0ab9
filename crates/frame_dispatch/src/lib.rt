//! The block that makes calls of what isn't known: it looks at the header of a procedure. `specs/Codes.antt` has its code, and that of the loops to which
//! it goes on, of the entries of builtins and of CATCHes; `specs/Laws.antt` what calls of builtins, and of what is no procedure, come to.
#![tactic(auto)]

pub mod laws;
