//! Laws of live frames in the stack, in stamped runs.

ghost use Rattle.frame_stacks.specs.Laws.{NoFramesAreHeld, FrameGetsArePerformed, PopsArePerformed, PushesEnd, FramesKeepData, RaisingKeepsFrames, JumpsArePerformed, ReturnsArePerformed};

/// A stack in which nothing was pushed holds the frames of a state that has none.
pub fn frames_begin()
    ensures { NoFramesAreHeld }
{}

/// The code of an operation that reads a slot of the youngest frame, in front of the rest of a block, comes to the rest, where the
/// variable holds what the slot holds and all else is as before.
pub fn frames_are_read()
    ensures { FrameGetsArePerformed }
{}

/// A jump comes to the block with nothing bound but its parameters, and a return to the block to which the youngest frame goes back,
/// with the value, while the frame stays.
pub fn blocks_begin()
    ensures jumps { JumpsArePerformed }
    ensures returns { ReturnsArePerformed }
{}

/// The code that pops the youngest frame, in front of the rest of a block, comes to the rest, where the older frames are held.
pub fn frames_are_popped()
    ensures { PopsArePerformed }
{}

/// The code that pushes a frame ends the run where the stack has no room for it, with what was asked and what was left.
pub fn no_frame_is_pushed_without_room()
    ensures { PushesEnd }
{}

/// Where a frame is pushed, data and frames that were there are held as before.
pub fn older_frames_stay()
    ensures data_held { FramesKeepData }
    ensures frames { RaisingKeepsFrames }
{}
