//! The law of runs that end by a value.

ghost use Rattle.frame_ends.specs.Laws.{HaltsArePerformed};

/// The code that halts ends the run by what is shown of the value.
pub fn values_end_runs()
    ensures { HaltsArePerformed }
{}
