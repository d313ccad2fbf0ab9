//! What follows where assigned variables became cells.
ghost use Rattle.assign_convert.specs.CellLaws.{CellsKeep, CellsAreSound};

/// The meaning is kept: ends and outputs both ways, words of heap, what waits, and no more moves.
pub fn cells_keep_meaning()
    ensures { CellsKeep }
{}

/// All that follows: the meaning is kept, the result is whole and within the rule on loads, its loads are those of the argument, its bulk is
/// no greater, and no Set is left.
pub fn cells_are_sound()
    ensures { CellsAreSound }
{}
