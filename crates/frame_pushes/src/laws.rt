//! Laws of frames that are pushed, in stamped runs.

ghost use Rattle.frame_pushes.specs.Laws.{PushesArePerformed};

/// The code that pushes a frame, in front of the rest of a block, comes to the rest where the stack has room: the frame is there with the
/// values of the variables that it keeps, and all else is as before.
pub fn frames_are_pushed()
    ensures { PushesArePerformed }
{}
