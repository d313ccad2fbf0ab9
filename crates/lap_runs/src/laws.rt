//! Laws of runs of items through several places, as contracts of functions that do nothing.

ghost use Rattle.lap_runs.specs.Laws.{NoneGoes, GoesThen, OneGoes, AddressGoes, BranchGoes, HomesGive, VariablesGive, NumbersGive};

/// Runs are put together from those of single items.
pub fn runs_add_up()
    ensures none { NoneGoes }
    ensures next { GoesThen }
{}

/// One item is one instruction further, where it asks for no service.
pub fn one_item_goes()
    ensures one { OneGoes }
    ensures address { AddressGoes }
    ensures branch { BranchGoes }
{}

/// Homes with a word, variables, and words that are written out give their long words as operands of instructions, and change no
/// register.
pub fn operands_give()
    ensures homes { HomesGive }
    ensures variables { VariablesGive }
    ensures numbers { NumbersGive }
{}
