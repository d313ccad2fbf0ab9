//! Laws of services and their items, as contracts of functions that do nothing.

ghost use Rattle.lap_services.specs.Laws.{CharactersArrive, FixnumsArrive, FaultsArrive, RoomReported};

/// The items that put a character or a fixnum put the same bytes and go on as the words do; those of a fault end with it; and those that
/// report a lack of room end with what was asked for and what is left: A6 - A4 of the heap, A7 - A5 of the stack.
pub fn services_arrive()
    ensures characters { CharactersArrive }
    ensures fixnums { FixnumsArrive }
    ensures faults { FaultsArrive }
    ensures room { RoomReported }
{}
