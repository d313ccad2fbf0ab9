// LABELS: closures of procedures that see each other's names.
ghost use Rattle.std.specs.Prelude.{◌≡◌, length, IfOk, OnOk, IsTrue};
ghost use Rattle.cps_ir.specs.declared.terms.Term.TheVariants as Node;
ghost use Rattle.closure_layout.specs.Labelled.{MayName, MayNameOne, MakesAll};
ghost use Rattle.layout_tables.specs.Sketches.{AreBelow, KnowsFirst};
ghost use Rattle.layout_steps.specs.Steps.{IsLaid};

use cps_ir::Cps;
use frame_ir::FrameOp;
use layout_steps::{closure, go_to, is_fresh};
use layout_tables::{Line, Scope, Site, Step, Tables, Work, are_distinct, is_celled, rank_of};
use std::alloc::Global;
use t_base::{Keys, Memory, Var, Vars};

/// Whether a name may be bound at a place.
fn may_name_one(tables: &Tables, scope: &Scope, site: &Site, name: Var) -> bool
    ensures { IsTrue result → MayNameOne tables.now scope.now site.now name }
{
    let fresh = is_fresh(tables, scope, site, name);
    let plain = !is_celled(tables, name);
    fresh && plain
}

/// Whether these names may be bound at a place.
fn may_name(tables: &Tables, scope: &Scope, site: &Site, names: &[Var]) -> bool
    ensures { IsTrue result → MayName tables.now scope.now site.now names.now }
{
    for name in names {
        if !may_name_one(tables, scope, site, *name) {
            return false;
        }
    }
    true
}

/// Makes the closures of procedures, each in its variable.
fn push_closures(
    alloc: Global,
    tables: &Tables,
    work: &mut Work,
    scope: &Scope,
    ops: &mut Vec<FrameOp>,
    lams: &[u32],
    tos: &[Var],
) -> Result<(), Memory>
    requires { length tos.now ≡ length lams.now }
    ensures { OnOk result (MakesAll tables.now scope.now work.old work.new ops.old.items ops.new.items lams.now tos.now) }
{
    for place in 0..lams.len() {
        let made = closure(alloc, tables, work, scope, lams[place], tos[place])?;
        ops.push(made)?;
    }
    Ok(())
}

/// Closures of procedures that see each other's names, and then the body in a block of its own.
pub(crate) fn lay_labels(
    alloc: Global,
    cps: &Cps,
    tables: &Tables,
    work: &mut Work,
    line: &mut Line,
    term: u32,
    vars: &Vars,
    lams: &Keys,
    body: u32,
) -> Result<Step, Memory>
    requires first { KnowsFirst cps.now tables.now }
    requires below { AreBelow work.old.next line.old.scope }
    ensures { IfOk result (IsLaid cps.now tables.now work.old work.new line.old line.new term (Node.Labels vars.now lams.now body)) }
{
    let names = vars.as_slice();
    let places = lams.as_slice();
    if names.len() != places.len() {
        return Err(Memory);
    }
    if !may_name(tables, &line.scope, &line.site, names) {
        return Err(Memory);
    }
    if !are_distinct(names) {
        return Err(Memory);
    }
    if rank_of(tables, body) >= rank_of(tables, term) {
        return Err(Memory);
    }
    let tos = work.variables(alloc, places.len())?;
    line.scope.hold_all(names, &tos)?;
    push_closures(
        alloc,
        tables,
        work,
        &line.scope,
        &mut line.ops,
        places,
        &tos,
    )?;
    let last = go_to(alloc, cps, tables, work, &line.scope, &line.site, body)?;
    Ok(Step::Done(last))
}
