//! Laws of the machine, as contracts of functions that do nothing.

ghost use Rattle.m68020_step.specs.Ranges.{BootIsInRange, StepKeepsRange};

/// At boot each register is a long word, and storage is bytes.
pub fn boot_is_in_range()
    ensures { BootIsInRange }
{}

/// A step leaves long words in the registers and bytes in storage, the same code, and regions as long as they were.
/// So it is along a whole run.
pub fn step_keeps_range()
    ensures { StepKeepsRange }
{}
