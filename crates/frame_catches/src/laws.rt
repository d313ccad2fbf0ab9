//! The law of CATCHes that are opened, in stamped runs.

ghost use Rattle.frame_catches.specs.Laws.{CatchesAreOpened};

/// The code that opens a CATCH, in front of the rest of a block, comes to the rest, where its escape is bound and is the innermost one, or the run
/// ends for want of heap or of stack.
pub fn catches_are_opened()
    ensures { CatchesAreOpened }
{}
