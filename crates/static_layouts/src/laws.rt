//! What holds of the layout of what was gathered.
ghost use Rattle.static_layouts.specs.Layouts.{GatheredIsLaidOut};

/// What was gathered for a whole program is laid out: all that the program names stands there, and all that stands there is in its first state.
pub fn gathered_is_laid_out()
    ensures { GatheredIsLaidOut }
{}
