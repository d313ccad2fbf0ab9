//! Laws of ends of blocks and their items, as contracts of functions that do nothing.

ghost use Rattle.lap_ends.specs.Laws.{TestsArrive, CodesApart};

/// The items of a test, of each kind, come to the label of the block to which the test turns, and nothing has changed.
pub fn tests_arrive()
    ensures { TestsArrive }
{}

/// In the code that is emitted, blocks whose code is taken have different addresses, none of them 0.
pub fn codes_apart()
    ensures { CodesApart }
{}
