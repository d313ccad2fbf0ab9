//! What holds of each plan.
ghost use Rattle.closure_strategy.specs.Plans.{PlansAreSound};

/// Only the procedure of a global and the default of an operation is static, and nothing is free in it; and procedures with one template
/// number have one strategy.
pub fn plans_are_sound()
    ensures { PlansAreSound }
{}
