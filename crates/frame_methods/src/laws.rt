//! The law of entries of methods, in stamped runs.

ghost use Rattle.frame_methods.specs.Laws.{MethodsAreEntered, WrongCountsFail};

/// The entry of a method begins its block with the operands; where their count is another one, the run ends by that fault.
pub fn methods_are_entered()
    ensures entries { MethodsAreEntered }
    ensures counts { WrongCountsFail }
{}
