//! Laws of homes.

ghost use Rattle.trace_regs.specs.Homes.{HomesRunAlike, HomesKeep, StampedHomesRunAlike, StampedHomesKeep};

/// Words and the same words with homes run alike, step for step, wherever variables that live at once have different homes outside the
/// stack and the run of the words is safe. So the one keeps the meaning of the other, with the same moves.
pub fn homes_keep_meaning()
    ensures alike { HomesRunAlike }
    ensures keeps { HomesKeep }
{}

/// So do their stamped runs, and a safe stamped run is a safe one with homes.
pub fn homes_keep_stamps()
    ensures alike { StampedHomesRunAlike }
    ensures keeps { StampedHomesKeep }
{}
