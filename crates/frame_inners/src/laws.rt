//! Laws of closures in frames, in stamped runs.

ghost use Rattle.frame_inners.specs.Laws.{InnerClosuresAreRead, InnerClosuresAreApplied};

/// The code that reads what a closure captured comes to the rest, also where the closure stands in a live frame.
pub fn inner_closures_are_read()
    ensures { InnerClosuresAreRead }
{}

/// A call of a closure in a live frame that isn't known comes to the entry of its code.
pub fn inner_closures_are_applied()
    ensures { InnerClosuresAreApplied }
{}
