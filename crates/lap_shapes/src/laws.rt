//! Laws of the items' shapes, as contracts of functions that do nothing.

ghost use Rattle.lap_shapes.specs.Laws.{CanBeAssembled, BytesWithin};

/// What is emitted of a whole program meets the condition of `assemble`, but for the sum of lengths: each instruction is a row of the table
/// and no branch, each block has its label once, and branches and addresses name blocks that are there.
pub fn can_be_assembled()
    ensures { CanBeAssembled }
{}

/// What is emitted has no more bytes than a table by the kind of each operation and end says.
pub fn bytes_within()
    ensures { BytesWithin }
{}
