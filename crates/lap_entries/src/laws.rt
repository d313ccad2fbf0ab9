//! Where the items of ends lead, what emitted items keep, and what they tell where there is no room.

ghost use Rattle.lap_simulation.specs.Laws.{EndsLead, EmittedKeeps, LeftIsTold};

/// The items of the end of a block lead to where the end does: a jump and an Enter to the operations of the block, with the words of its
/// parameters in their homes, in at most thirteen instructions for each move.
pub fn ends_lead()
    ensures { EndsLead }
{}

/// The items of a whole program of words with homes run as the program does: they end by the same value, fault or want of room, with the same
/// output, in at most thirteen instructions for each move.
pub fn emitted_items_keep()
    ensures { EmittedKeeps }
{}

/// Where heap or stack is full in the run of the assembled bytes of a whole program of words with homes, what is left is what the machine's
/// registers say at that moment: A6 - A4 of the heap, A7 - A5 of the stack.
pub fn emitted_items_tell()
    ensures { LeftIsTold }
{}
