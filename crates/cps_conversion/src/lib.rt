//! What it means that a program in continuation-passing style stands for a unit (`specs/Conversion.antt`), and that it keeps the
//! meaning of the unit then (`specs/Law.antt`).
#![tactic(auto)]

pub mod examples;

ghost use Rattle.cps_conversion.specs.Law.{ConversionKeeps, ConversionKeepsMost};

/// A program that stands for a unit keeps its meaning, with at most 5 moves for each unit of work and 5 more: the same ends by value or
/// fault and the same output, both ways, no more words of heap, nothing that waits longer than the unit is deep, and no other end. This
/// holds with any marking of the LAMBDAs that escape and any marking of the procedures that marks none of those that stand for the others;
/// and with every LAMBDA and every procedure counted as escaping.
pub fn conversion_keeps()
    ensures marked { ConversionKeeps }
    ensures at_most { ConversionKeepsMost }
{}
