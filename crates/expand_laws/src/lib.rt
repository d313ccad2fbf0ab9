//! Laws of the table of forms, and of the cores and first refusals of data. They speak of the definitions alone: the table ends on every
//! form (`specs/Ends.antt`), so data have a core or a first refusal (`specs/Cores.antt`).
#![tactic(auto)]

ghost use Rattle.std.specs.Prelude.{List, ◌⊎◌};
ghost use Rattle.expand_laws.specs.Cores.{HasCore, HasFirstRefusal};
ghost use Rattle.expand_laws.specs.Ends.{Ends};
ghost use Rattle.t_forms.specs.Data.{datum_of};
ghost use Rattle.t_forms.specs.Names.{Scope};
ghost use Rattle.t_reader.specs.declared.unit.Unit.{Unit as TextUnit};
ghost use Rattle.t_reader.specs.Grammar.{Tree};
ghost use Rattle.t_reader.specs.Unit.{HoldTrees, IsWhole};

pub mod renaming;

/// The table of forms ends on every form of a text, in every scope.
pub fn table_ends()
    ensures { (scope : Scope) (t : Tree) → Ends scope (datum_of t) }
{}

/// The data of a whole text unit have a core, or a first refusal.
pub fn core_or_refusal()
    ensures { (unit : TextUnit) (trees : List Tree) → IsWhole unit → HoldTrees unit.names unit.nodes.items unit.forms.items trees → HasCore trees ⊎ HasFirstRefusal trees }
{}
