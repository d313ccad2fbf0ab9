//! Small units, and programs that stand for them.
ghost use Rattle.cps_ir.specs.Examples.{sum, assignment, labels_see, catch_over_two};
ghost use Rattle.cps_conversion.specs.Examples.{sum_unit, assignment_unit, labels_unit, catch_unit, StandsFor};

/// A sum; a variable that is assigned; LAMBDAs that see each other's names; and a DEFINE, with a CATCH whose escape it calls.
pub fn small_programs()
    ensures sum { StandsFor sum_unit sum }
    ensures assignment { StandsFor assignment_unit assignment }
    ensures labels { StandsFor labels_unit labels_see }
    ensures catch_over_two { StandsFor catch_unit catch_over_two }
{}
