//! Laws of escapes that end, in stamped runs.

ghost use Rattle.frame_escapes.specs.Laws.{CatchesAreClosed, EscapesAreCalled, DeadEscapesFail, WrongCountsFail, CatchesAreCounted};

/// The code that closes the innermost CATCH, in front of the rest of a block, comes to the rest, where its frame is gone and its escape is dead.
pub fn catches_are_closed()
    ensures { CatchesAreClosed }
{}

/// A call of a live escape with a value comes to the block to which its CATCH's frame goes back, with that frame and all younger ones gone, and all
/// escapes of CATCHes among them dead. A call of a dead one, and one with another count of operands, ends the run by that fault.
pub fn escapes_are_called()
    ensures live { EscapesAreCalled }
    ensures dead { DeadEscapesFail }
    ensures counts { WrongCountsFail }
{}

/// The CATCHes that end and those that are left are all that were live.
pub fn catches_are_counted()
    ensures { CatchesAreCounted }
{}
