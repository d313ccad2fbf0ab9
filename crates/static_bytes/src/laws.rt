//! Laws of the static bytes, as contracts of a function that does nothing.

ghost use Rattle.static_bytes.specs.Laws.{FourEach, StandInOrder};

/// There are four bytes for each word, and they stand in the order of the words.
pub fn bytes_stand_in_order()
    ensures four { FourEach }
    ensures order { StandInOrder }
{}
