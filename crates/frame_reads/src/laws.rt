//! Laws of what is read, in stamped runs.

ghost use Rattle.frame_reads.specs.Laws.{ClosuresAreRead, ObjectsAreRead, CellsAreRead, GlobalsAreRead, UnboundGlobalsFail, BranchesArePerformed, FrameBranchesArePerformed};

/// The code that reads what a closure or an object on the heap captured, or what a cell holds, in front of the rest of a block, comes to the
/// rest, where the variable holds it.
pub fn records_are_read()
    ensures closures { ClosuresAreRead }
    ensures objects { ObjectsAreRead }
    ensures cells { CellsAreRead }
{}

/// A global is read where it has a value; where it has none, the run ends by that fault.
pub fn globals_are_read()
    ensures bound { GlobalsAreRead }
    ensures unbound { UnboundGlobalsFail }
{}

/// The test of a value leads to the tree of its answer, with nothing changed.
pub fn branches_are_performed()
    ensures lasting { BranchesArePerformed }
    ensures in_frame { FrameBranchesArePerformed }
{}
