//! The core of a unit, or its first refusal.
ghost use Rattle.std.specs.Prelude.{[], ◌≡◌, ◌≢◌, ◌+◌, ◌++◌, ◌≤◌, ◌^◌, ℕ, AllPairs, List, length, map, sum_by, IfOk};
ghost use Rattle.t_base.specs.declared.basics.Span.{Span};
ghost use Rattle.t_base.specs.declared.shared_parts.OpInfo.{OpInfo};
ghost use Rattle.t_reader.specs.Grammar.{Tree};
ghost use Rattle.t_reader.specs.Unit.{HoldTrees, fixed_names, string_bytes};
ghost use Rattle.t_reader.specs.Unit.{IsWhole as IsWholeText};
ghost use Rattle.t_prim.specs.SharedParts.{HasLowerParts};
ghost use Rattle.t_objects.specs.Operations.{IsTableOf};
ghost use Rattle.t_core.specs.Counts.{bulk_of};
ghost use Rattle.t_forms.specs.Data.{datum_of};
ghost use Rattle.t_rows.specs.declared.refusal.SyntaxKind.{SyntaxKind};
ghost use Rattle.t_rows.specs.declared.refusal.Refusal.{Refusal as SpecRefusal};
ghost use Rattle.t_rows.specs.Rows.{refusal};
ghost use Rattle.expansion.specs.Units.{tops_of};
ghost use Rattle.expansion.specs.Meaning.{IsCoreOf};
ghost use Rattle.expansion.specs.Refusals.{RefusedIn, IsFirstRefusal};
ghost use Rattle.t_expand.specs.Outcome.{IsRefusedWith, IsStarted, IsPrepared, IsText, IsOutcome, IsFinished};
ghost use Rattle.t_expand.specs.Tallies.{AreTallied};

use crate::driver_state::{Expansion, NodeList};
use crate::fault::SyntaxFault;
use crate::spans::Spans;
use crate::unit_all::FormList;
use core_size::largest;
use std::alloc::Global;
use t_base::{Memory, Names, Shared};
use t_core::UnitCore;
use t_forms::{Forms, Scope, load};
use t_objects::OpTable;
use t_reader::{Node, Unit};
use t_rows::Refusal;
use unit_tops::{Entries, Top, entries_of, tops_of};

/// Forms at top level before the first is expanded.
#[derive(Drop)]
pub struct Prepared {
    pub expansion: Expansion,
    pub tops: Vec<Top>,
}

/// Before the first form: nothing is bound, and nothing is made or refused yet.
fn started(alloc: Global, names: Names, forms: Forms, entries: Entries) -> Expansion
    ensures { IsStarted names forms entries result }
{
    let Entries {
        table,
        globals,
        ops,
    } = entries;
    Expansion {
        alloc,
        forms,
        scope: Scope::new(alloc, table),
        shared: Shared {
            names,
            strings: Vec::new(alloc),
            pairs: Vec::new(alloc),
            globals,
            ops,
            size: 0,
        },
        nodes: NodeList::new(alloc),
        next: 0,
        first: None,
    }
}

/// The forms at top level of these data, and what they define.
fn prepare(alloc: Global, names: Names, nodes: &[Node], keys: &[u32]) -> Result<Prepared, Memory>
    ensures prepared { (trees : List Tree) (others : List (List ℕ)) → HoldTrees names nodes.now keys.now trees → names ≡ fixed_names ++ others → AllPairs (λ a b. a ≢ b) names → IfOk result (λ p. IsPrepared names trees p.expansion p.tops.items) }
    ensures nothing { IfOk result (λ p. AreTallied [] p.expansion) }
{
    let mut forms = load(alloc, nodes, &names)?;
    let tops = tops_of(&mut forms, &names, keys)?;
    let entries = entries_of(alloc, &names, tops.as_slice())?;
    let expansion = started(alloc, names, forms, entries);
    Ok(Prepared { expansion, tops })
}

fn fault_of(refusal: Refusal) -> SyntaxFault
    ensures { result ≡ SyntaxFault.Fault refusal.kind refusal.span }
{
    SyntaxFault::Fault {
        kind: refusal.kind,
        span: refusal.span,
    }
}

/// The unit of forms that are made.
fn finished(expansion: Expansion, list: FormList) -> Result<(UnitCore, Vec<Spans>), Memory>
    requires lower { HasLowerParts expansion.shared.pairs.items }
    ensures { IfOk result (λ x. IsFinished expansion.shared list x.0 x.1.items) }
{
    let Expansion { alloc, shared, .. } = expansion;
    let FormList { forms, spans } = list;
    let size = largest(alloc, shared.pairs.as_slice(), forms.as_slice())?;
    let shared = Shared { size, ..shared };
    Ok((UnitCore { shared, forms }, spans))
}

/// The core of a unit whose forms are prepared, or its first refusal.
fn expand_prepared(prepared: Prepared) -> Result<(UnitCore, Vec<Spans>), SyntaxFault>
    requires nothing { AreTallied [] prepared.expansion }
    ensures outcome { (names : List (List ℕ)) (trees : List Tree) → IsText names trees → IsPrepared names trees prepared.expansion prepared.tops.items → IsOutcome trees result }
    ensures bulk { IfOk result (λ x. bulk_of x.0 ≤ 2 ^ 31) }
    ensures lower { IfOk result (λ x. HasLowerParts x.0.shared.pairs.items) }
    ensures names { (names : List (List ℕ)) (trees : List Tree) → IsPrepared names trees prepared.expansion prepared.tops.items → IfOk result (λ x. x.0.shared.names ≡ names) }
    ensures bytes { (names : List (List ℕ)) (trees : List Tree) (t : IsText names trees) → IsPrepared names trees prepared.expansion prepared.tops.items → IfOk result (λ x. sum_by length x.0.shared.strings.items ≤ string_bytes t.text.nodes.items) }
    ensures table { (names : List (List ℕ)) (trees : List Tree) (table : List OpInfo) → IsText names trees → IsPrepared names trees prepared.expansion prepared.tops.items → IsTableOf names trees table → IfOk result (λ x. x.0.shared.ops.items ≡ table) }
{
    let Prepared { expansion, tops } = prepared;
    let mut expansion = expansion;
    let list = expansion.expand_all(tops.as_slice())?;
    match expansion.first {
        Some(refusal) => Err(fault_of(refusal)),
        None => {
            let made = finished(expansion, list)?;
            Ok(made)
        }
    }
}

/// The core of a unit with the spans of its nodes, or the first refusal of the unit.
///
/// The unit is whole, as `read_unit` gives it, and `ops` is what `resolve_ops` gives for it. `Ok` is a core of the data, with the spans
/// of the data that its nodes stand for, a list for each form; it comes only where nothing is refused, and has the operations of `ops`,
/// which aren't looked at. `Err(Fault)` is the first refusal. `Err(Memory)` is the want of memory, and would stand for what can't arise
/// on a text.
pub fn expand_spans(
    alloc: Global,
    unit: Unit,
    ops: &OpTable,
) -> Result<(UnitCore, Vec<Spans>), SyntaxFault>
    requires whole { IsWholeText unit }
    requires table { (trees : List Tree) → HoldTrees unit.names unit.nodes.items unit.forms.items trees → IsTableOf unit.names trees ops.now.ops.items }
    ensures core { (trees : List Tree) → HoldTrees unit.names unit.nodes.items unit.forms.items trees → IfOk result (λ x. IsCoreOf trees x.0 x.1.items) }
    ensures accepted { (trees : List Tree) (r : SpecRefusal) → HoldTrees unit.names unit.nodes.items unit.forms.items trees → RefusedIn (tops_of (map datum_of trees)) r → IfOk result (λ x. ⊥) }
    ensures fault { (trees : List Tree) (kind : SyntaxKind) (span : Span) → HoldTrees unit.names unit.nodes.items unit.forms.items trees → result ≡ Err (SyntaxFault.Fault kind span) → IsFirstRefusal trees (refusal kind span) }
    ensures refused { (trees : List Tree) (r : SpecRefusal) → HoldTrees unit.names unit.nodes.items unit.forms.items trees → IsFirstRefusal trees r → IsRefusedWith r result }
    ensures bulk { IfOk result (λ x. bulk_of x.0 ≤ 2 ^ 31) }
    ensures lower { IfOk result (λ x. HasLowerParts x.0.shared.pairs.items) }
    ensures bytes { IfOk result (λ x. sum_by length x.0.shared.names + sum_by length x.0.shared.strings.items ≤ sum_by length unit.names + string_bytes unit.nodes.items + 2 ^ 12) }
    ensures table { IfOk result (λ x. x.0.shared.ops.items ≡ ops.now.ops.items) }
{
    let Unit {
        names,
        nodes,
        forms,
    } = unit;
    let prepared = prepare(alloc, names, nodes.as_slice(), forms.as_slice())?;
    expand_prepared(prepared)
}

/// The core of a unit, or the first refusal of the unit: the first half of what `expand_spans` gives, under its conditions.
pub fn expand(alloc: Global, unit: Unit, ops: &OpTable) -> Result<UnitCore, SyntaxFault>
    requires whole { IsWholeText unit }
    requires table { (trees : List Tree) → HoldTrees unit.names unit.nodes.items unit.forms.items trees → IsTableOf unit.names trees ops.now.ops.items }
    ensures core { (trees : List Tree) → HoldTrees unit.names unit.nodes.items unit.forms.items trees → IfOk result (λ u. (spans : List (List Span)) × IsCoreOf trees u spans) }
    ensures accepted { (trees : List Tree) (r : SpecRefusal) → HoldTrees unit.names unit.nodes.items unit.forms.items trees → RefusedIn (tops_of (map datum_of trees)) r → IfOk result (λ u. ⊥) }
    ensures fault { (trees : List Tree) (kind : SyntaxKind) (span : Span) → HoldTrees unit.names unit.nodes.items unit.forms.items trees → result ≡ Err (SyntaxFault.Fault kind span) → IsFirstRefusal trees (refusal kind span) }
    ensures refused { (trees : List Tree) (r : SpecRefusal) → HoldTrees unit.names unit.nodes.items unit.forms.items trees → IsFirstRefusal trees r → IsRefusedWith r result }
    ensures bulk { IfOk result (λ u. bulk_of u ≤ 2 ^ 31) }
    ensures lower { IfOk result (λ u. HasLowerParts u.shared.pairs.items) }
    ensures bytes { IfOk result (λ u. sum_by length u.shared.names + sum_by length u.shared.strings.items ≤ sum_by length unit.names + string_bytes unit.nodes.items + 2 ^ 12) }
    ensures table { IfOk result (λ u. u.shared.ops.items ≡ ops.now.ops.items) }
{
    match expand_spans(alloc, unit, ops) {
        Ok((unit, _)) => Ok(unit),
        Err(fault) => Err(fault),
    }
}
