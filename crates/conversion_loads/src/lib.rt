//! Laws of the loads of programs that stand for a unit.
#![tactic(auto)]

ghost use Rattle.conversion_loads.specs.Loaded.{LoadsAreFew};

/// In a program that stands for a whole unit, no closed term and no procedure of a global or an operation has a load above the count of
/// the unit's greatest form.
pub fn loads_are_few()
    ensures { LoadsAreFew }
{}
