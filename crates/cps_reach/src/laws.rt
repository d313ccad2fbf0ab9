//! What procedures reach, and what the escape marks take them to reach.

ghost use Rattle.cps_reach.specs.ReachLaws.{ReachesAlike};

/// In a program that is formed and within the rule on loads, each procedure that is reached reaches the variables that the escape marks take
/// it to reach, and no others. It reaches no k and no global.
pub fn reaches_are_alike()
    ensures { ReachesAlike }
{}
