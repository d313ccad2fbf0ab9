//! A program that stands for a unit is formed: what is named is there, each variable is bound once and used where it is bound, and each
//! continuation leads on in its own procedure and under the right catches.
#![tactic(auto)]

ghost use Rattle.conversion_scopes.specs.Once.{TermsAreOnce, VariablesAreOnce};
ghost use Rattle.conversion_scopes.specs.Formed.{ConvertedIsFormed};
ghost use Rattle.conversion_scopes.specs.Alone.{AssignedStandAlone};

/// Where terms stand in order, each named once, no term is reached twice; and where no variable is bound twice by what is listed, none is
/// by what is reached.
pub fn nothing_is_reached_twice()
    ensures terms { TermsAreOnce }
    ensures variables { VariablesAreOnce }
{}

/// A program that stands for a whole unit within its limits is whole but for fitting, where what is owed beside the relation holds.
pub fn converted_is_formed()
    ensures { ConvertedIsFormed }
{}

/// In a program that stands for a unit an assigned variable is bound by a Give alone, to what is no assigned variable, and stands as the
/// variable of a Set and as the value of a Give alone.
pub fn assigned_stand_alone()
    ensures { AssignedStandAlone }
{}
