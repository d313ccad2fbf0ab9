//! Laws of moves between homes, as contracts of functions that do nothing.

ghost use Rattle.lap_jumps.specs.Laws.{MovesCarry};
ghost use Rattle.lap_jumps.specs.Jumps.{JumpsArrive, ParamsDistinct};

/// The items of moves one after another carry the word of each home: behind them the homes, and D7 between them, have the words that the
/// moves give them, and nothing else has changed.
pub fn moves_carry()
    ensures { MovesCarry }
{}

/// The items of a jump to a block whose code isn't taken come to the block's label, with the words of its parameters in their homes, in at
/// most three instructions for each argument and one more.
pub fn jumps_arrive()
    ensures { JumpsArrive }
{}

/// In a whole program the parameters of each block have homes of their own, as a jump wants them.
pub fn params_distinct()
    ensures { ParamsDistinct }
{}
