//! One thing that a unit gives, as a value: it would be another one if the language were evaluated otherwise in one point.

ghost use Rattle.program_runs.specs.Runs.{Faulted};
ghost use Rattle.rows_meaning.specs.Answers.{end_of, EndsWith, Puts, Works};
ghost use Rattle.rows_meaning.specs.BuiltinUnits.{changed_vector};
ghost use Rattle.rows_meaning.specs.CallUnits.{no_procedure, two_bad_operands};
ghost use Rattle.rows_meaning.specs.CatchUnits.{dead_escape};
ghost use Rattle.rows_meaning.specs.ObjectUnits.{first_method};

use t_base::Fault;

/// Operands are evaluated from left to right: where two of them are wrong, the fault is that of the left one.
pub fn fault_of_the_left_operand() -> Fault
    ensures { EndsWith two_bad_operands 10 (Faulted result) }
{
    Fault::NotPair
}

/// A call faults that can't be made when its operands have been evaluated, so what they put is put.
pub fn output_before_a_wrong_call() -> &'static [u8]
    ensures { Puts no_procedure 10 result.now }
{
    b"1"
}

/// An escape whose CATCH has ended gives no value any more.
pub fn call_of_a_dead_escape() -> Result<i32, Fault>
    ensures { EndsWith dead_escape 10 (end_of result) }
{
    Err(Fault::DeadEscape)
}

/// Of the methods those up to the first one that fits are looked at, each of which is one of work, and none behind it.
pub fn work_up_to_the_first_method() -> u64
    ensures { Works first_method 10 result }
{
    10
}

/// SET of an element of a vector puts the value into that element.
pub fn elements_after_set() -> &'static [u8]
    ensures { Puts changed_vector 10 result.now }
{
    b"070"
}
