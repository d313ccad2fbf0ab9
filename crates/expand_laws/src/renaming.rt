// What is free in a core.
ghost use Rattle.std.specs.Prelude.{List};
ghost use Rattle.expand_laws.specs.Renaming.{IsRenamed};
ghost use Rattle.expand_laws.specs.SameCounts.{CountAlike};
ghost use Rattle.t_base.specs.declared.basics.Span.{Span};
ghost use Rattle.t_core.specs.declared.forms.UnitCore.{UnitCore};
ghost use Rattle.expansion.specs.Meaning.{IsCoreOf};
ghost use Rattle.t_reader.specs.Grammar.{Tree};

/// The cores of one list of data differ at most by a one-to-one renaming of their variables.
pub fn cores_are_renamed()
    ensures { (trees : List Tree) (unit other : UnitCore) (spans others : List (List Span)) → IsCoreOf trees unit spans → IsCoreOf trees other others → IsRenamed unit spans other others }
{}

/// The cores of one list of data count alike, so that it is one and the same for all whether a limit is passed, and which.
pub fn cores_count_alike()
    ensures { (trees : List Tree) (unit other : UnitCore) (spans others : List (List Span)) → IsCoreOf trees unit spans → IsCoreOf trees other others → CountAlike unit other }
{}
