//! What emitted items keep.

ghost use Rattle.lap_simulation.specs.Laws.{EndsLead, EmittedKeeps, LeftIsTold};

/// Where the items of the ends of blocks lead to where the ends do, the items of a whole program run as the program does: they end by the same
/// value, fault or want of room, with the same output, in at most thirteen instructions for each move.
pub fn emitted_keeps()
    ensures { EndsLead → EmittedKeeps }
{}

/// Where heap or stack is full in such a run of the assembled bytes, what is left is what the machine's registers say at that moment: A6 - A4 of the
/// heap, A7 - A5 of the stack.
pub fn left_is_told()
    ensures { EndsLead → LeftIsTold }
{}
