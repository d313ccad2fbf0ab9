//! Laws of builtins that are called as values, in stamped runs.

ghost use Rattle.frame_builtins.specs.Laws.{BuiltinsAreCalled, FaultsOfBuiltinsEnd};

/// The entry of a builtin comes to what its row says of the operands: the block to which the youngest frame goes back, with the value and the new
/// state held, the row's fault, which is also that of a wrong count, or no room in the heap.
pub fn builtins_are_called()
    ensures values { BuiltinsAreCalled }
    ensures faults { FaultsOfBuiltinsEnd }
{}
