//! A law of cores: their strings are those of the text. No row of the table of forms puts the bytes of a string into two places, where
//! nothing is refused. The crate has no code.
#![tactic(auto)]

ghost use Rattle.std.specs.Prelude.{List, ◌≤◌, length, sum_by};
ghost use Rattle.expansion.specs.Meaning.{IsCoreOf};
ghost use Rattle.kept_strings.specs.Named.{NamesEach};
ghost use Rattle.t_base.specs.declared.basics.Span.{Span};
ghost use Rattle.t_core.specs.declared.forms.UnitCore.{UnitCore};
ghost use Rattle.t_reader.specs.declared.unit.Unit.{Unit as TextUnit};
ghost use Rattle.t_reader.specs.Grammar.{Tree};
ghost use Rattle.t_reader.specs.Unit.{HoldTrees, IsWhole, string_bytes};

/// A core of a whole text unit, in which each string and each quoted pair is named once, has no more bytes of strings than the text unit.
pub fn strings_are_few()
    ensures { (text : TextUnit) (trees : List Tree) (unit : UnitCore) (spans : List (List Span)) → IsWhole text → HoldTrees text.names text.nodes.items text.forms.items trees → IsCoreOf trees unit spans → NamesEach unit → sum_by length unit.shared.strings.items ≤ string_bytes text.nodes.items }
{}
