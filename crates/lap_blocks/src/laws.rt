//! Laws of the places of blocks, as contracts of a function that does nothing.

ghost use Rattle.lap_blocks.specs.Laws.{BlocksStand, BlocksApart};

/// At the label of a block the machine is at the block's items: the moves of its parameters, its operations, and its end. No two blocks
/// have one address, and none has 0.
pub fn blocks_stand()
    ensures stand { BlocksStand }
    ensures apart { BlocksApart }
{}
