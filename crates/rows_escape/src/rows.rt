//! A clause for each unit says what escapes in it. `specs/Units.antt` has the units with their texts.
ghost use Rattle.std.specs.Prelude.{true, false, [], ◌∷◌};
ghost use Rattle.rows_escape.specs.Inventories.{passed_by_name};
ghost use Rattle.rows_escape.specs.Rows.{Escape, EscapeIn, lambda, variable};
ghost use Rattle.rows_escape.specs.Units.{passed_down, passed_with_free_variable, called_in_a_loop, escape_in_a_lambda, passed_by_a_tail_call, reached_by_a_known_name, operand_of_a_lambda, reached_by_a_method, name_passed, past_the_parameters, assigned_name};

/// No LAMBDA of these units escapes. `down`: it is passed to a procedure that only calls it and passes it on to itself. `free`: so is
/// one with a free variable. `called`: it is only called, in a loop. `escape`: it calls the escape of a CATCH around it.
pub fn where_lambdas_stay()
    ensures down { Escape passed_down (variable 1 ∷ variable 2 ∷ []) }
    ensures free { Escape passed_with_free_variable (variable 2 ∷ variable 1 ∷ []) }
    ensures called { Escape called_in_a_loop (variable 3 ∷ variable 1 ∷ []) }
    ensures escape { Escape escape_in_a_lambda (variable 2 ∷ []) }
{}

/// A LAMBDA of each of these units escapes. `tail`: it is passed by a tail call. `known`: it is given back, and calls a known name,
/// which calls a parameter; so the LAMBDA that is passed for this parameter escapes too, but not the one of the known name.
/// `operand`: the operator of the call has no name. `method`: the parameter for which it is passed is called in a method. `name`: its
/// name is passed by a tail call; the other LAMBDA, whose name is passed by another call, stays. `past`: there is no parameter for it.
/// `assigned`: its name is assigned.
pub fn where_lambdas_escape()
    ensures tail { Escape passed_by_a_tail_call (lambda 2 5 ∷ variable 1 ∷ variable 2 ∷ variable 3 ∷ []) }
    ensures known { Escape reached_by_a_known_name (lambda 0 7 ∷ lambda 1 4 ∷ variable 2 ∷ variable 3 ∷ variable 0 ∷ variable 5 ∷ []) }
    ensures operand { Escape operand_of_a_lambda (lambda 0 7 ∷ variable 1 ∷ []) }
    ensures method { Escape reached_by_a_method (lambda 2 2 ∷ variable 0 ∷ []) }
    ensures name { Escape name_passed (lambda 1 1 ∷ variable 2 ∷ variable 1 ∷ variable 4 ∷ []) }
    ensures past { Escape past_the_parameters (lambda 1 2 ∷ []) }
    ensures assigned { Escape assigned_name (lambda 0 1 ∷ variable 0 ∷ []) }
{}

/// The same by an inventory whose LAMBDAs are numbered. `kept`: a LAMBDA is passed by its name to a procedure that only calls it and
/// passes it on to itself. `tail`: it is passed so by a tail call, and escapes with its name.
pub fn where_lambdas_are_numbered()
    ensures kept { EscapeIn (passed_by_name false) (variable 1 ∷ variable 2 ∷ []) }
    ensures tail { EscapeIn (passed_by_name true) (lambda 0 1 ∷ variable 1 ∷ variable 2 ∷ variable 3 ∷ []) }
{}
