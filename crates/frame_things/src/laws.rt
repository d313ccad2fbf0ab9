//! Laws of cells and objects, in stamped runs.

ghost use Rattle.frame_things.specs.Laws.{CellsAreMade, ObjectsAreMade};

/// The code that makes a cell or an object, in front of the rest of a block, comes to the rest, where the variable holds it, or to the end of the
/// run for want of its words.
pub fn things_are_made()
    ensures cells { CellsAreMade }
    ensures objects { ObjectsAreMade }
{}
