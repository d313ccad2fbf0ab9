//! Laws of calls of operations, in stamped runs.

ghost use Rattle.frame_operations.specs.Laws.{OperationsLook, OperationsOfNoneFail, MethodsAreFound, MethodsArePassed, DefaultsAreTaken, UnhandledFail};

/// A call of an operation comes to the loop that looks at the methods of the first operand; without operands it ends the run by that fault. The loop comes
/// to the entry of a method of that operation, or to itself with the methods behind another one; where none is left, to the entry of the default, or the run ends by that fault.
pub fn operations_look_at_methods()
    ensures look { OperationsLook }
    ensures none { OperationsOfNoneFail }
    ensures found { MethodsAreFound }
    ensures passed { MethodsArePassed }
    ensures defaults { DefaultsAreTaken }
    ensures unhandled { UnhandledFail }
{}
