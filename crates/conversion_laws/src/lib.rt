//! Laws of programs that stand for a unit, where what is owed beside the relation holds (`specs/Owed.antt`).
#![tactic(auto)]

ghost use Rattle.conversion_laws.specs.Plain.{PlainGivesPlain, NoCatchIsMade};
ghost use Rattle.conversion_laws.specs.Shapes.{ConvertedIsShaped};

/// A unit without assigned variables, globals, operations, objects and CATCH becomes terms of the kinds Call, Prim, If, Labels, Join, Give
/// and Halt alone, and no argument is a global or an operation.
pub fn plain_gives_plain()
    ensures { PlainGivesPlain }
{}

/// A unit without CATCH becomes no Catch and no Uncatch.
pub fn no_catch_is_made()
    ensures { NoCatchIsMade }
{}

/// In a program that stands for a whole unit within its limits, what is named is there, LAMBDAs stand behind the procedures of globals and
/// operations, lists agree, calls and procedures have at most twenty operands and parameters, a default has its self parameter, and the
/// shared parts are whole.
pub fn converted_is_shaped()
    ensures { ConvertedIsShaped }
{}
