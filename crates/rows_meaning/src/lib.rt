//! Units of a few forms, and what the meaning gives for each, computed by the check itself: output, end, words of heap, depth and
//! work. They show that the definitions say what the description of the language says.
#![tactic(auto)]

mod results;
pub mod whole;

ghost use Rattle.std.specs.Prelude.{[], ◌∷◌, ◌++◌, pos, codes};
ghost use Rattle.program_runs.specs.Runs.{Value, Faulted, Fixnum, Character, EmptyList, Truth, Symbol, Kind};
ghost use Rattle.t_base.specs.declared.faults.Fault.TheVariants.{NotProcedure, WrongCount, NotFixnum, NotPair, NotVector, IndexRange, FixnumOverflow, DivideByZero, Unbound, DeadEscape, NotHandled, NotChar, NotString, CharRange, User, NotSymbol};
ghost use Rattle.rows_meaning.specs.Answers.{cost, Ends, EndsByMarks, IsOut};
ghost use Rattle.rows_meaning.specs.BuiltinUnits.{add_nil, car_of_number, vref_of_number, vref_past_end, negative_vector, sum_too_large, quotient_too_large, divide_by_zero, code_of_number, length_of_number, char_past_end, name_of_number, user_fault, largest_sum, last_char, two_literals, one_literal, one_builtin, one_print_name, one_quoted_pair, two_closures, changed_pair, changed_vector, shown_char, shown_true, shown_symbol, shown_pair, shown_vector, shown_string, shown_builtin, shown_closure, shown_escape, shown_object, shown_operation};
ghost use Rattle.rows_meaning.specs.CallUnits.{no_procedure, operator_first, too_many_operands, two_bad_operands, builtin_with_one, values_in_order, swap, upward, downward, tail_loop, deep_calls, if_at_top};
ghost use Rattle.rows_meaning.specs.DefinitionUnits.{no_forms, procedure_form, value_form, variable_form, operation_form, late_procedure, early_set, bump};
ghost use Rattle.rows_meaning.specs.CatchUnits.{through_inner_catch, past_a_procedure, dead_escape, dead_inner_escape, dead_escape_with_two};
ghost use Rattle.rows_meaning.specs.ObjectUnits.{areas, settable, locative_once, first_method, default_behind_methods, no_operands, method_with_two, default_with_two, no_procedure_part};
ghost use Rattle.rows_meaning.specs.CostUnits.{pair_and_vectors, assigned_binding, assigned_parameter, assigned_label, assigned_escape, each_of_list, each_in_tail_place};
ghost use Rattle.rows_meaning.specs.QueensUnit.{queens};

pub use crate::results::{
    call_of_a_dead_escape, elements_after_set, fault_of_the_left_operand,
    output_before_a_wrong_call, work_up_to_the_first_method,
};

/// What each builtin refuses comes with its own fault, at the first operand that is wrong.
pub fn faults_of_builtins()
    ensures add_nil { Ends add_nil 10 [] (Faulted NotFixnum) (cost 0 2 4) }
    ensures car_of_number { Ends car_of_number 10 [] (Faulted NotPair) (cost 0 2 3) }
    ensures vref_of_number { Ends vref_of_number 10 [] (Faulted NotVector) (cost 0 2 4) }
    ensures vref_past_end { Ends vref_past_end 10 [] (Faulted IndexRange) (cost 4 3 5) }
    ensures negative_vector { Ends negative_vector 10 [] (Faulted IndexRange) (cost 0 2 3) }
    ensures sum_too_large { Ends sum_too_large 10 [] (Faulted FixnumOverflow) (cost 0 2 4) }
    ensures quotient_too_large { Ends quotient_too_large 10 (codes "0") (Faulted FixnumOverflow) (cost 0 3 9) }
    ensures divide_by_zero { Ends divide_by_zero 10 [] (Faulted DivideByZero) (cost 0 2 4) }
    ensures code_of_number { Ends code_of_number 10 [] (Faulted NotChar) (cost 0 2 3) }
    ensures length_of_number { Ends length_of_number 10 [] (Faulted NotString) (cost 0 2 3) }
    ensures char_past_end { Ends char_past_end 10 [] (Faulted CharRange) (cost 0 2 3) }
    ensures name_of_number { Ends name_of_number 10 [] (Faulted NotSymbol) (cost 0 2 3) }
    ensures user_fault { Ends user_fault 10 (codes "a\"b" ++ 10 ∷ []) (Faulted (User (pos 42))) (cost 0 2 8) }
{}

/// Values at the ends of their ranges, and what is one thing: a literal at its place, a builtin, a symbol's print name and a quoted
/// pair, but no two literals and no two evaluations of a LAMBDA.
pub fn values_of_builtins()
    ensures largest_sum { Ends largest_sum 10 [] (Value (Fixnum (pos 536870911))) (cost 0 2 4) }
    ensures last_char { Ends last_char 10 [] (Value (Character 98)) (cost 0 2 4) }
    ensures two_literals { Ends two_literals 10 [] (Value EmptyList) (cost 0 2 4) }
    ensures one_literal { Ends one_literal 10 [] (Value Truth) (cost 0 3 6) }
    ensures one_builtin { Ends one_builtin 10 [] (Value Truth) (cost 0 2 4) }
    ensures one_print_name { Ends one_print_name 10 [] (Value Truth) (cost 0 3 6) }
    ensures one_quoted_pair { Ends one_quoted_pair 10 [] (Value Truth) (cost 0 3 11) }
    ensures two_closures { Ends two_closures 10 [] (Value EmptyList) (cost 42 4 12) }
{}

/// SET of a part of a pair or of an element of a vector changes that place and no other.
pub fn changed_places()
    ensures changed_pair { Ends changed_pair 10 [] (Value (Fixnum (pos 4))) (cost 2 5 14) }
    ensures changed_vector { Ends changed_vector 10 (codes "070") (Value (Fixnum (pos 3))) (cost 6 5 23) }
{}

/// How a value of each kind is shown.
pub fn shown_values()
    ensures shown_char { Ends shown_char 10 [] (Value (Character 97)) (cost 0 1 2) }
    ensures shown_true { Ends shown_true 10 [] (Value Truth) (cost 0 1 2) }
    ensures shown_symbol { Ends shown_symbol 10 [] (Value (Symbol (codes "ab"))) (cost 0 1 2) }
    ensures shown_pair { Ends shown_pair 10 [] (Value (Kind 1)) (cost 0 1 2) }
    ensures shown_vector { Ends shown_vector 10 [] (Value (Kind 2)) (cost 2 2 3) }
    ensures shown_string { Ends shown_string 10 [] (Value (Kind 3)) (cost 0 1 2) }
    ensures shown_builtin { Ends shown_builtin 10 [] (Value (Kind 4)) (cost 0 1 2) }
    ensures shown_closure { Ends shown_closure 10 [] (Value (Kind 4)) (cost 6 1 2) }
    ensures shown_escape { Ends shown_escape 10 [] (Value (Kind 4)) (cost 4 3 5) }
    ensures shown_object { Ends shown_object 10 [] (Value (Kind 5)) (cost 6 2 3) }
    ensures shown_operation { Ends shown_operation 10 [] (Value (Kind 6)) (cost 0 1 2) }
{}

/// The operator is evaluated first, then the operands from left to right, and then a call faults that can't be made.
pub fn calls()
    ensures no_procedure { Ends no_procedure 10 (codes "1") (Faulted NotProcedure) (cost 0 3 6) }
    ensures operator_first { Ends operator_first 10 (codes "12") (Faulted NotProcedure) (cost 0 4 9) }
    ensures too_many_operands { Ends too_many_operands 10 (codes "12") (Faulted WrongCount) (cost 18 4 13) }
    ensures two_bad_operands { Ends two_bad_operands 10 [] (Faulted NotPair) (cost 14 3 5) }
    ensures builtin_with_one { Ends builtin_with_one 10 [] (Faulted WrongCount) (cost 0 3 7) }
    ensures values_in_order { Ends values_in_order 10 (codes "12") (Value (Fixnum (pos 1))) (cost 0 4 13) }
    ensures swap { Ends swap 30 [] (Value (Fixnum (pos 1))) (cost 29 4 76) }
    ensures upward { Ends upward 20 [] (Value (Fixnum (pos 105))) (cost 57 3 29) }
    ensures downward { Ends downward 20 [] (Value (Fixnum (pos 32))) (cost 32 5 42) }
{}

/// A tail call waits no deeper, and another one does. A part in a tail place is one deeper where the whole stands in none.
pub fn depth_and_work()
    ensures tail_loop { Ends tail_loop 40 [] (Value (Fixnum (pos 10))) (cost 21 4 112) }
    ensures deep_calls { Ends deep_calls 30 [] (Value (Fixnum (pos 5))) (cost 23 9 72) }
    ensures if_at_top { Ends if_at_top 10 [] (Value (Fixnum (pos 3))) (cost 0 4 10) }
{}

/// A DEFINE of a LAMBDA and a DEFINE-OPERATION are in force from the start, and other definitions run in their order. Each gives its
/// name.
pub fn definitions()
    ensures no_forms { Ends no_forms 10 [] (Value EmptyList) (cost 0 0 0) }
    ensures procedure_form { Ends procedure_form 10 [] (Value (Symbol (codes "f"))) (cost 0 0 1) }
    ensures value_form { Ends value_form 10 [] (Value (Symbol (codes "x"))) (cost 0 2 4) }
    ensures variable_form { Ends variable_form 10 [] (Value (Symbol (codes "x"))) (cost 0 1 2) }
    ensures operation_form { Ends operation_form 10 [] (Value (Symbol (codes "area"))) (cost 0 0 1) }
    ensures late_procedure { Ends late_procedure 10 (codes "7") (Faulted Unbound) (cost 0 3 13) }
    ensures early_set { Ends early_set 10 (codes "1") (Faulted Unbound) (cost 0 4 10) }
    ensures bump { Ends bump 10 (codes "2") (Value (Fixnum (pos 3))) (cost 0 3 22) }
{}

/// An escape ends its own CATCH and all inner ones, and is dead then. Its count of operands is looked at first.
pub fn catches()
    ensures through_inner_catch { Ends through_inner_catch 10 [] (Value (Fixnum (pos 5))) (cost 8 7 13) }
    ensures past_a_procedure { Ends past_a_procedure 10 [] (Value (Fixnum (pos 1))) (cost 17 5 18) }
    ensures dead_escape { Ends dead_escape 10 [] (Faulted DeadEscape) (cost 4 4 13) }
    ensures dead_inner_escape { Ends dead_inner_escape 10 [] (Faulted DeadEscape) (cost 8 7 21) }
    ensures dead_escape_with_two { Ends dead_escape_with_two 10 [] (Faulted WrongCount) (cost 4 4 14) }
{}

/// The first method that fits is called with all operands, and else the default.
pub fn objects()
    ensures areas { Ends areas 10 (codes "09942") (Faulted NotHandled) (cost 38 3 53) }
    ensures settable { Ends settable 10 (codes "5") (Value (Fixnum (pos 5))) (cost 179 4 61) }
    ensures locative_once { Ends locative_once 10 (codes "1") (Value (Fixnum (pos 7))) (cost 41 5 33) }
    ensures first_method { Ends first_method 10 [] (Value (Fixnum (pos 1))) (cost 14 3 10) }
    ensures default_behind_methods { Ends default_behind_methods 10 [] (Value (Fixnum (pos 3))) (cost 14 3 12) }
    ensures no_operands { Ends no_operands 10 [] (Faulted WrongCount) (cost 0 2 5) }
    ensures method_with_two { Ends method_with_two 10 [] (Faulted WrongCount) (cost 12 3 9) }
    ensures default_with_two { Ends default_with_two 10 [] (Faulted WrongCount) (cost 0 2 8) }
    ensures no_procedure_part { Ends no_procedure_part 10 [] (Faulted NotProcedure) (cost 8 3 7) }
{}

/// A pair takes 2 words, a vector 2 and its length rounded up to even, a binding of an assigned variable 2, a CATCH 4, and an OBJECT
/// and an escaping LAMBDA 4 and the size of the largest form.
pub fn heap_words()
    ensures pair_and_vectors { Ends pair_and_vectors 10 [] (Value (Kind 1)) (cost 14 3 6) }
    ensures assigned_binding { Ends assigned_binding 10 [] (Value (Fixnum (pos 2))) (cost 2 4 8) }
    ensures assigned_parameter { Ends assigned_parameter 10 [] (Value (Fixnum (pos 2))) (cost 14 3 9) }
    ensures assigned_label { Ends assigned_label 10 [] (Value (Fixnum (pos 2))) (cost 14 4 7) }
    ensures assigned_escape { Ends assigned_escape 10 [] (Value (Fixnum (pos 5))) (cost 6 5 8) }
    ensures each_of_list { Ends each_of_list 40 [] (Value (Fixnum (pos 36))) (cost 45 10 183) }
    ensures each_in_tail_place { Ends each_in_tail_place 20 [] (Value (Fixnum (pos 6))) (cost 22 4 77) }
{}

/// Up to four queens are placed.
pub fn four_queens()
    ensures { Ends queens 110 (codes "queens 1: 1" ++ 10 ∷ [] ++ codes "queens 2: 0" ++ 10 ∷ [] ++ codes "queens 3: 0" ++ 10 ∷ [] ++ codes "queens 4: 2" ++ 10 ∷ []) (Value (Symbol (codes "done"))) (cost 308 24 4733) }
{}

/// A bound that is too small gives what there is so far.
pub fn out_of_bound()
    ensures areas { IsOut areas 5 (codes "09") (cost 38 3 32) }
    ensures tail_loop { IsOut tail_loop 10 [] (cost 21 4 28) }
    ensures sum_too_large { IsOut sum_too_large 0 [] (cost 0 0 1) }
{}

/// With the marks of the unit, a LAMBDA takes heap only where it escapes.
pub fn heap_words_by_marks()
    ensures each_of_list { EndsByMarks each_of_list 40 [] (Value (Fixnum (pos 36))) (cost 16 10 183) }
    ensures each_in_tail_place { EndsByMarks each_in_tail_place 20 [] (Value (Fixnum (pos 6))) (cost 22 4 77) }
    ensures upward { EndsByMarks upward 20 [] (Value (Fixnum (pos 105))) (cost 38 3 29) }
    ensures downward { EndsByMarks downward 20 [] (Value (Fixnum (pos 32))) (cost 0 5 42) }
    ensures tail_loop { EndsByMarks tail_loop 40 [] (Value (Fixnum (pos 10))) (cost 0 4 112) }
    ensures deep_calls { EndsByMarks deep_calls 30 [] (Value (Fixnum (pos 5))) (cost 0 9 72) }
    ensures past_a_procedure { EndsByMarks past_a_procedure 10 [] (Value (Fixnum (pos 1))) (cost 4 5 18) }
    ensures two_closures { EndsByMarks two_closures 10 [] (Value EmptyList) (cost 28 4 12) }
    ensures assigned_label { EndsByMarks assigned_label 10 [] (Value (Fixnum (pos 2))) (cost 14 4 7) }
{}
