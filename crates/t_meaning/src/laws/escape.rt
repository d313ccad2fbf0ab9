//! Laws of the escape marks of a unit: which of its LAMBDAs and names escape.

ghost use Rattle.t_meaning.specs.Escape.{EscapingIsClosed, EscapingIsLeast, CalledNamesStay, CalledLambdasStay};

/// The marks of a unit are closed under each of the four rules: as many rounds as the unit has nodes are enough.
pub fn marks_are_closed()
    ensures { EscapingIsClosed }
{}

/// What is marked is marked by every marking that is closed under the four rules.
pub fn marks_are_least()
    ensures { EscapingIsLeast }
{}

/// A name that is no parameter and is only called isn't marked, nor is a LAMBDA that stands only as operator or as the value of such
/// a name, where that is known.
pub fn what_is_only_called_stays()
    ensures names { CalledNamesStay }
    ensures lambdas { CalledLambdasStay }
{}
