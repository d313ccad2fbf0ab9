//! Laws of operations, of tests and their items, as contracts of functions that do nothing.

ghost use Rattle.lap_operations.specs.Laws.{OperationsArrive, TestsCome};

/// From each state that stands for one of the words, at the items of any operation that a whole program may have, these come to what the
/// operation does, in at most thirteen instructions for each move that the operation counts, and in at least one.
pub fn operations_arrive()
    ensures { OperationsArrive }
{}

/// So it is with the items of a test at the end of a block, which come to the label of the block to which it turns.
pub fn tests_come()
    ensures { TestsCome }
{}
