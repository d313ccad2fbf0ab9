//! Laws of the meaning of a unit.

pub mod escape;

ghost use Rattle.t_meaning.specs.BoundLaws.{TaskOnlyAdds, TaskExtends, UnitExtends, MeaningIsSteady, MeaningWaits};
ghost use Rattle.t_meaning.specs.CatchLaws.{TasksStayInside, UnitStaysInside, EndsAreProper};
ghost use Rattle.t_meaning.specs.CostLaws.{UnmarkedTakesNoHeap, MarksChangeHeapAlone, MeaningIsAtMost};
ghost use Rattle.t_meaning.specs.Soundness.{DefinitionsAreProcedures, StartIsSound, TasksKeepSound, UnitKeepsSound, UnboundIsAGlobal};

/// A task only adds to the output and to the counters of heap, work and depth. One that isn't out of its bound gives the same at
/// every greater bound, and one that is has no more output and no higher counters than at a greater bound.
pub fn task_extends()
    ensures adds { TaskOnlyAdds }
    ensures extends { TaskExtends }
{}

/// A unit that isn't out of its bound gives the same at every greater bound. Where it is, its output begins the output at a
/// greater bound, and its counters are no higher.
pub fn unit_extends()
    ensures outcome { UnitExtends }
    ensures steady { MeaningIsSteady }
    ensures waits { MeaningWaits }
{}

/// A task that gives a value leaves the same catches live, and an escape that leaves a task goes to a catch that was live before it.
/// So no escape leaves a unit, and a unit ends by a value or a fault alone.
pub fn escapes_stay_inside()
    ensures tasks { TasksStayInside }
    ensures units { UnitStaysInside }
    ensures proper { EndsAreProper }
{}

/// The evaluation of a LAMBDA that doesn't escape takes no heap.
pub fn unmarked_takes_no_heap()
    ensures { UnmarkedTakesNoHeap }
{}

/// A marking that marks more changes nothing of what is seen but the words of heap, which are no fewer. So a unit costs no more than
/// with every LAMBDA counted as escaping.
pub fn marks_change_heap_alone()
    ensures marks { MarksChangeHeapAlone }
    ensures at_most { MeaningIsAtMost }
{}

/// In a whole unit a global is defined as a LAMBDA exactly where it is a procedure. What a variable, a location, a closure, an object or a
/// method is wanted for is there, at the start and in every state that a task comes to. Fault 9 arises only where a global that a node reads or
/// assigns has no value.
pub fn unbound_is_a_global()
    ensures definitions { DefinitionsAreProcedures }
    ensures start { StartIsSound }
    ensures tasks { TasksKeepSound }
    ensures units { UnitKeepsSound }
    ensures unbound { UnboundIsAGlobal }
{}
