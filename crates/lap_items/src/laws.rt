//! Laws of the items, as contracts of functions that do nothing.

ghost use Rattle.lap_items.specs.Laws.{WholeCanMove};

/// In a whole program no two arguments of a jump, an Enter or a block's start go to one home, and no home is the place between them.
pub fn whole_can_move()
    ensures { WholeCanMove }
{}
