//! The units are whole: each node stands once in a tree, variables are used in their scope, calls say whether they stand in a tail
//! place, lists fit each other, each definition is there once, and the size is that of the largest form.
ghost use Rattle.std.specs.Prelude.{[], ◌∷◌};
ghost use Rattle.rows_meaning.specs.WholeUnits.{AreWhole};
ghost use Rattle.rows_meaning.specs.BuiltinUnits.{add_nil, car_of_number, vref_of_number, vref_past_end, negative_vector, sum_too_large, quotient_too_large, divide_by_zero, code_of_number, length_of_number, char_past_end, name_of_number, user_fault, largest_sum, last_char, two_literals, one_literal, one_builtin, one_print_name, one_quoted_pair, two_closures, changed_pair, changed_vector, shown_char, shown_true, shown_symbol, shown_pair, shown_vector, shown_string, shown_builtin, shown_closure, shown_escape, shown_object, shown_operation};
ghost use Rattle.rows_meaning.specs.CallUnits.{no_procedure, operator_first, too_many_operands, two_bad_operands, builtin_with_one, values_in_order, swap, upward, downward, tail_loop, deep_calls, if_at_top};
ghost use Rattle.rows_meaning.specs.DefinitionUnits.{no_forms, procedure_form, value_form, variable_form, operation_form, late_procedure, early_set, bump};
ghost use Rattle.rows_meaning.specs.CatchUnits.{through_inner_catch, past_a_procedure, dead_escape, dead_inner_escape, dead_escape_with_two};
ghost use Rattle.rows_meaning.specs.ObjectUnits.{areas, settable, locative_once, first_method, default_behind_methods, no_operands, method_with_two, default_with_two, no_procedure_part};
ghost use Rattle.rows_meaning.specs.CostUnits.{pair_and_vectors, assigned_binding, assigned_parameter, assigned_label, assigned_escape, each_of_list, each_in_tail_place};
ghost use Rattle.rows_meaning.specs.QueensUnit.{queens};

/// Every unit of this crate is whole.
pub fn units_are_whole()
    ensures faults_of_builtins { AreWhole (add_nil ∷ car_of_number ∷ vref_of_number ∷ vref_past_end ∷ negative_vector ∷ sum_too_large ∷ quotient_too_large ∷ divide_by_zero ∷ code_of_number ∷ length_of_number ∷ char_past_end ∷ name_of_number ∷ user_fault ∷ []) }
    ensures values_of_builtins { AreWhole (largest_sum ∷ last_char ∷ two_literals ∷ one_literal ∷ one_builtin ∷ one_print_name ∷ one_quoted_pair ∷ two_closures ∷ []) }
    ensures changed_places { AreWhole (changed_pair ∷ changed_vector ∷ []) }
    ensures shown_values { AreWhole (shown_char ∷ shown_true ∷ shown_symbol ∷ shown_pair ∷ shown_vector ∷ shown_string ∷ shown_builtin ∷ shown_closure ∷ shown_escape ∷ shown_object ∷ shown_operation ∷ []) }
    ensures calls { AreWhole (no_procedure ∷ operator_first ∷ too_many_operands ∷ two_bad_operands ∷ builtin_with_one ∷ values_in_order ∷ swap ∷ upward ∷ downward ∷ tail_loop ∷ deep_calls ∷ if_at_top ∷ []) }
    ensures definitions { AreWhole (no_forms ∷ procedure_form ∷ value_form ∷ variable_form ∷ operation_form ∷ late_procedure ∷ early_set ∷ bump ∷ []) }
    ensures catches { AreWhole (through_inner_catch ∷ past_a_procedure ∷ dead_escape ∷ dead_inner_escape ∷ dead_escape_with_two ∷ []) }
    ensures objects { AreWhole (areas ∷ settable ∷ locative_once ∷ first_method ∷ default_behind_methods ∷ no_operands ∷ method_with_two ∷ default_with_two ∷ no_procedure_part ∷ []) }
    ensures heap_words { AreWhole (pair_and_vectors ∷ assigned_binding ∷ assigned_parameter ∷ assigned_label ∷ assigned_escape ∷ each_of_list ∷ each_in_tail_place ∷ []) }
    ensures queens { AreWhole (queens ∷ []) }
{}
