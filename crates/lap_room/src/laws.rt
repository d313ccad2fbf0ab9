//! The law of what is left, as contract of a function that does nothing.

ghost use Rattle.lap_room.specs.Laws.{RoomIsTold};

/// The items of the service for want of room end the run as full, with what was asked for, and with what is left as the machine's own registers
/// say at that moment: A6 - A4 for the heap, A7 - A5 for the stack.
pub fn room_is_told()
    ensures { RoomIsTold }
{}
