//! Laws of the core and of the first refusal.

ghost use Rattle.std.specs.Prelude.{◌≡◌, List, map};
ghost use Rattle.t_reader.specs.Grammar.{Tree};
ghost use Rattle.t_forms.specs.Data.{datum_of};
ghost use Rattle.expansion.specs.Units.{tops_of};
ghost use Rattle.expansion.specs.Refusals.{RefusedIn, IsFirstRefusal};
ghost use Rattle.t_rows.specs.declared.refusal.Refusal.{Refusal};
ghost use Rattle.expansion.specs.Meaning.{IsCoreOf};
ghost use Rattle.t_base.specs.declared.basics.Span.{Span};
ghost use Rattle.t_core.specs.declared.forms.UnitCore.{UnitCore};
ghost use Rattle.t_core.specs.Whole.{IsWhole};

/// The first refusals of data have one place and one kind.
pub fn one_refusal()
    ensures place { (trees : List Tree) (a b : Refusal) → IsFirstRefusal trees a → IsFirstRefusal trees b → a.span.start ≡ b.span.start }
    ensures kind { (trees : List Tree) (a b : Refusal) → IsFirstRefusal trees a → IsFirstRefusal trees b → a.kind ≡ b.kind }
{}

/// A core of data is a whole unit.
pub fn core_is_whole()
    ensures { (trees : List Tree) (unit : UnitCore) (spans : List (List Span)) → IsCoreOf trees unit spans → IsWhole unit }
{}

/// No data have both a core and a refusal.
pub fn never_both()
    ensures { (trees : List Tree) (unit : UnitCore) (spans : List (List Span)) (r : Refusal) → IsCoreOf trees unit spans → RefusedIn (tops_of (map datum_of trees)) r → ⊥ }
{}
