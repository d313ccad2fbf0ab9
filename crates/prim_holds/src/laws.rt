//! Laws of builtins in code with frames, in stamped runs.

ghost use Rattle.prim_holds.specs.Laws.{ArgumentsHaveWords, RowsKeepFrames, PrimsArePerformed, CountsAreFree};

/// The operand of an argument holds a word of its value.
pub fn arguments_have_words()
    ensures { ArgumentsHaveWords }
{}

/// What keeps data, stack and variables, as the code of every row does, holds the new state with its frames, escapes and variables.
pub fn rows_keep_frames()
    ensures { RowsKeepFrames }
{}

/// The code of a builtin comes to what its row says: the rest with the value bound and the new state held, the row's fault, or no room in
/// the heap for what the new state has more.
pub fn builtins_are_performed()
    ensures { PrimsArePerformed }
{}

/// What is held says nothing of the moves counted and of what is done next.
pub fn counts_are_free()
    ensures { CountsAreFree }
{}
