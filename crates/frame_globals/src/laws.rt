//! Laws of globals that get values, in stamped runs.

ghost use Rattle.frame_globals.specs.Laws.{GlobalsAreSet, GlobalsAreChanged, UnboundGlobalsStay};

/// The code that gives a global its first value, and that which gives another one to a global that has one, comes to the rest with the value in its
/// place; where a global that is to be changed has none, the run ends by that fault.
pub fn globals_are_set()
    ensures first { GlobalsAreSet }
    ensures changed { GlobalsAreChanged }
    ensures unbound { UnboundGlobalsStay }
{}
