//! Laws of services and of the run with them.

ghost use Rattle.machine_services.specs.Laws.{RunsAddUp, EndedStays, OutputGrows, InstructionsWithin, GoingCounts, ObservedIsMachine, ObservedGoesOn, ObservedCounts, ServicesReadAlike};

/// A run goes on from where a shorter one came to. What has ended stays, output only grows, and an instruction counts one, unless the
/// machine stops at it.
pub fn runs_add_up()
    ensures add { RunsAddUp }
    ensures ended { EndedStays }
    ensures grows { OutputGrows }
    ensures within { InstructionsWithin }
    ensures counts { GoingCounts }
{}

/// The run from any state is that of a machine whose step is one instruction, with its service. What is seen of it only goes on, and its
/// moves are its steps.
pub fn observed_runs_go_on()
    ensures same { ObservedIsMachine }
    ensures goes_on { ObservedGoesOn }
    ensures counts { ObservedCounts }
{}

/// A service whose operands are of their kind does the same wherever the same bytes are read.
pub fn services_read_alike()
    ensures { ServicesReadAlike }
{}
