//! Laws of the start, as contracts of functions that do nothing.

ghost use Rattle.lap_starts.specs.Laws.{StartsRepresented, HomesServe};

/// The machine at boot, with the assembled code and the static bytes, stands for the start of the words; and the homes of a whole program
/// are homes that the code can use.
pub fn starts_represented()
    ensures start { StartsRepresented }
    ensures homes { HomesServe }
{}
