//! The law of cells that get values, in stamped runs.

ghost use Rattle.frame_cells.specs.Laws.{CellsAreSet};

/// The code that gives a cell another value, in front of the rest of a block, comes to the rest, where the cell holds it.
pub fn cells_are_set()
    ensures { CellsAreSet }
{}
