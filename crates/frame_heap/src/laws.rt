//! Laws of what is made on the heap, in stamped runs.

ghost use Rattle.frame_heap.specs.Laws.{GroupsArePerformed};

/// The code of a group of closures, in front of the rest of a block, comes to the rest with all of them made, or to the end of the run
/// for want of the words that they take.
pub fn closures_are_made()
    ensures { GroupsArePerformed }
{}
