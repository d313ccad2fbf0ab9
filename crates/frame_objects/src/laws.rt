//! Laws of calls of objects and of what is no procedure, in stamped runs.

ghost use Rattle.frame_objects.specs.Laws.{ObjectsPassOn, OthersFail};

/// A call of an object comes to the block that makes the call again, with what the object calls; a call of a number, a character, Nil, True
/// or a pair ends the run by that fault.
pub fn objects_pass_calls_on()
    ensures objects { ObjectsPassOn }
    ensures others { OthersFail }
{}
