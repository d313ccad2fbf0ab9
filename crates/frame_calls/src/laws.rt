//! Laws of calls, in stamped runs.

ghost use Rattle.frame_calls.specs.Laws.{CallsArePerformed, EntriesArePerformed, WrongCountsFail, ClosuresAreApplied};

/// The end of a block that calls comes to the block that makes the call, with count, procedure and operands.
pub fn calls_are_made()
    ensures { CallsArePerformed }
{}

/// The entry of a code begins its block with the procedure and the operands; where their count is another one, the run ends by that fault.
pub fn codes_are_entered()
    ensures entries { EntriesArePerformed }
    ensures counts { WrongCountsFail }
{}

/// A call of a closure that isn't known comes to the entry of its code.
pub fn closures_are_applied()
    ensures { ClosuresAreApplied }
{}
