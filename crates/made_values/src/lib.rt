//! What the values of a program name: closures, objects and locations, each by its number. A row of the table of builtins gives and keeps
//! values whose closures and objects are there, and never faults with Unbound. So in a program that wants nothing that it hasn't made, only a
//! global can be missing.
#![tactic(auto)]

ghost use Rattle.made_values.specs.Made.{RowsKeepMade};

/// Where the values of a store and the operands are there, so are the value and the store that a row of the table of builtins gives, and its
/// fault is not Unbound.
pub fn rows_keep_made()
    ensures { RowsKeepMade }
{}
