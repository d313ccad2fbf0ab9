//! Laws of the code of builtins, in stamped runs.

ghost use Rattle.select_rows.specs.CheckLaws.{FixnumsAreChecked, PairsAreChecked, CharsAreChecked, ObjectsAreChecked, PlacesAreChecked};
ghost use Rattle.select_rows.specs.Codes.{RowsArePerformed};

/// A check goes on where its operand is of the kind, and ends the run by the row's fault where it isn't.
pub fn operands_are_checked()
    ensures fixnums { FixnumsAreChecked }
    ensures pairs { PairsAreChecked }
    ensures chars { CharsAreChecked }
    ensures objects { ObjectsAreChecked }
    ensures places { PlacesAreChecked }
{}

/// The code of each builtin comes to what the builtin's row says of its operands: the value, with the data, the stack
/// and the variables of the program as they were, or the fault.
pub fn rows_are_performed()
    ensures { RowsArePerformed }
{}
