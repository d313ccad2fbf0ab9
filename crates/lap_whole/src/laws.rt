//! Laws of lines of whole programs, as contracts of functions that do nothing.

ghost use Rattle.lap_whole.specs.Laws.{LinesUsable, OperationsOperable};

/// At each place of a whole program the operands are variables with homes, known numbers, or code that is taken; what is bound has a home;
/// numbers are those of their types, and lists fit what they are for. So each operation is one that the laws of operations take.
pub fn lines_usable()
    ensures lines { LinesUsable }
    ensures operations { OperationsOperable }
{}
