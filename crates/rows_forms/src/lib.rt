//! Programs in the three forms between unit and code: texts in each of them with what its run gives, computed by the check itself, and tests
//! of the calls of these forms that take memory.
#![tactic(auto)]

#[cfg(test)]
mod copies;

ghost use Rattle.std.specs.Prelude.{[], pos, Some, None};
ghost use Rattle.program_runs.specs.Runs.{Value, Faulted, Full, Fixnum};
ghost use Rattle.t_base.specs.declared.faults.Fault.TheVariants.{WrongCount};
ghost use Rattle.cps_ir.specs.Writing.{IsInOrder, HasBulk, cost as cps_cost, IsSeen as IsCpsSeen};
ghost use Rattle.cps_ir.specs.Examples.{sum as cps_sum};
ghost use Rattle.frame_ir.specs.Writing.{cost as frame_cost, IsSeen as AreFramesSeen};
ghost use Rattle.frame_ir.specs.Examples.{sum as frame_sum};
ghost use Rattle.word_ir.specs.Rows.{cost as word_cost, Ends, EndsStamped, IsWholeProgram};
ghost use Rattle.rows_forms.specs.CpsTexts.{two_catches as cps_catches, wrong_count};
ghost use Rattle.rows_forms.specs.FrameTexts.{two_catches as frame_catches};
ghost use Rattle.rows_forms.specs.WordTexts.{sum as word_sum, two_catches as word_catches};

/// `(+ 40 2)` in each form. Words are tested for their tags, and none of the forms takes heap.
pub fn sum_in_each_form()
    ensures cps { IsCpsSeen cps_sum 2 (Some (Value (Fixnum (pos 42)))) (cps_cost 0 0 5) }
    ensures frames { AreFramesSeen frame_sum 2 (Some (Value (Fixnum (pos 42)))) (frame_cost 0 0 5) }
    ensures words { Ends word_sum 4 [] (Value (Fixnum (pos 42))) (word_cost 0 0 11) }
    ensures stamped { EndsStamped word_sum 4 [] (Value (Fixnum (pos 42))) (word_cost 0 0 11) }
{}

/// `(catch a (+ 1 (catch b (a 5))))` in each form. Both CATCHes with their continuations and the call wait in the Cps, and a frame for each
/// of them, until the escape ends them all; it takes eight words of heap.
pub fn catches_in_each_form()
    ensures cps_waits { IsCpsSeen cps_catches 5 None (cps_cost 8 5 6) }
    ensures cps { IsCpsSeen cps_catches 7 (Some (Value (Fixnum (pos 5)))) (cps_cost 8 0 9) }
    ensures frames_wait { AreFramesSeen frame_catches 6 None (frame_cost 8 5 7) }
    ensures frames { AreFramesSeen frame_catches 10 (Some (Value (Fixnum (pos 5)))) (frame_cost 8 0 13) }
    ensures words { Ends word_catches 47 [] (Value (Fixnum (pos 5))) (word_cost 8 0 116) }
    ensures stamped { EndsStamped word_catches 47 [] (Value (Fixnum (pos 5))) (word_cost 8 0 116) }
{}

/// The programs are whole, those in continuation-passing style with loads within their size.
pub fn texts_are_whole()
    ensures cps { IsInOrder cps_catches }
    ensures wrong_count { IsInOrder wrong_count }
    ensures sum { IsWholeProgram word_sum }
    ensures words { IsWholeProgram word_catches }
{}

/// A LAMBDA of two parameters called with one, through a Join under an If.
pub fn count_is_looked_at()
    ensures { IsCpsSeen wrong_count 6 (Some (Faulted WrongCount)) (cps_cost 14 1 10) }
{}
