// Blocks, each for what it is asked for.
ghost use Rattle.std.specs.Prelude.{◌≡◌, ◌∷◌, [], ◌++◌, ◌<◌, ◌≤◌, ℕ, IfOk, OnOk, IsTrue};
ghost use Rattle.layout_relation.specs.Contexts.{paired};
ghost use Rattle.layout_relation.specs.Laid.{numbers};
ghost use Rattle.layout_tables.specs.Sketches.{AreBelow, KnowsFirst, counted};
ghost use Rattle.layout_tables.specs.Additions.{SeesBelow};
ghost use Rattle.closure_layout.specs.Blocks.{IsStep, IsLaidFrom, IsGoneFrom, IsBlockFor, IsFetched, IsOpened, AreApart, IsCallable, get_of};
ghost use Rattle.layout_tables.specs.declared.requests.Request.TheVariants as For;

use crate::labels::lay_labels;
use cps_ir::{Arg, Cps, Term};
use frame_ir::{Block, FrameEnd, FrameOp};
use layout_steps::{
    are_few, go_to_join, jump, lay_call, lay_catch, lay_cell, lay_cell_get, lay_cell_set, lay_give,
    lay_global_get, lay_global_init, lay_global_set, lay_halt, lay_if, lay_join, lay_object,
    lay_prim, lay_uncatch,
};
use layout_tables::{
    Line, Request, Scope, Site, Step, Tables, Work, are_distinct, find_all, is_celled, lam_needs,
    names, needs_behind,
};
use std::alloc::Global;
use t_base::{Memory, Var, Vars};

/// One term.
fn lay_term(
    alloc: Global,
    cps: &Cps,
    tables: &Tables,
    work: &mut Work,
    line: &mut Line,
    place: u32,
) -> Result<Step, Memory>
    requires first { KnowsFirst cps.now tables.now }
    requires below { AreBelow work.old.next line.old.scope }
    ensures { IfOk result (IsStep cps.now tables.now work.old work.new line.old line.new place) }
{
    let Some(term) = cps.terms.get(place as usize) else {
        return Err(Memory);
    };
    match term {
        Term::Call { f, args, k } => {
            let step = lay_call(alloc, cps, tables, work, line, place, *f, args, *k)?;
            Ok(step)
        }
        Term::Prim { p, args, k } => {
            let step = lay_prim(alloc, cps, tables, work, line, place, *p, args, *k)?;
            Ok(step)
        }
        Term::If { test, yes, no } => {
            let step = lay_if(alloc, cps, tables, work, line, place, *test, *yes, *no)?;
            Ok(step)
        }
        Term::Join {
            k,
            param,
            body,
            rest,
        } => {
            let step = lay_join(
                alloc, cps, tables, work, line, place, *k, *param, *body, *rest,
            )?;
            Ok(step)
        }
        Term::Give { k, value } => {
            let step = lay_give(alloc, cps, tables, work, line, place, *k, *value)?;
            Ok(step)
        }
        Term::Cell { var, value, rest } => {
            let step = lay_cell(alloc, cps, tables, work, line, place, *var, *value, *rest)?;
            Ok(step)
        }
        Term::CellGet { cell, k } => {
            let step = lay_cell_get(alloc, cps, tables, work, line, place, *cell, *k)?;
            Ok(step)
        }
        Term::CellSet { cell, value, k } => {
            let step = lay_cell_set(alloc, cps, tables, work, line, place, *cell, *value, *k)?;
            Ok(step)
        }
        Term::GlobalGet { global, k } => {
            let step = lay_global_get(alloc, cps, tables, work, line, place, *global, *k)?;
            Ok(step)
        }
        Term::GlobalInit { global, value, k } => {
            let step = lay_global_init(alloc, cps, tables, work, line, place, *global, *value, *k)?;
            Ok(step)
        }
        Term::GlobalSet { global, value, k } => {
            let step = lay_global_set(alloc, cps, tables, work, line, place, *global, *value, *k)?;
            Ok(step)
        }
        Term::Catch { escape, body, k } => {
            let step = lay_catch(alloc, cps, tables, work, line, place, *escape, *body, *k)?;
            Ok(step)
        }
        Term::Uncatch { k, value } => {
            let step = lay_uncatch(alloc, cps, tables, work, line, place, *k, *value)?;
            Ok(step)
        }
        Term::Halt { value } => {
            let step = lay_halt(alloc, cps, tables, work, line, place, *value)?;
            Ok(step)
        }
        Term::Labels { vars, lams, body } => {
            let step = lay_labels(alloc, cps, tables, work, line, place, vars, lams, *body)?;
            Ok(step)
        }
        Term::Object {
            proc,
            ops,
            methods,
            k,
        } => {
            let step = lay_object(
                alloc, cps, tables, work, line, place, *proc, ops, methods, *k,
            )?;
            Ok(step)
        }
        Term::Set { .. } => Err(Memory),
    }
}

/// The operations and the end of a block that lays out a term, and what stands behind it.
fn lay_line(
    alloc: Global,
    cps: &Cps,
    tables: &Tables,
    work: &mut Work,
    line: &mut Line,
    start: u32,
) -> Result<FrameEnd, Memory>
    requires first { KnowsFirst cps.now tables.now }
    requires below { AreBelow work.old.next line.old.scope }
    ensures { IfOk result (IsLaidFrom cps.now tables.now work.old work.new line.old line.new start) }
{
    let mut place = start;
    for count in 0..cps.terms.len() {
        match lay_term(alloc, cps, tables, work, line, place)? {
            Step::Next(next) => place = next,
            Step::Done(last) => return Ok(last),
        }
    }
    Err(Memory)
}

/// An arm of an If.
fn arm_block(
    alloc: Global,
    cps: &Cps,
    tables: &Tables,
    work: &mut Work,
    scope: &Scope,
    site: &Site,
    term: u32,
) -> Result<Block, Memory>
    requires first { KnowsFirst cps.now tables.now }
    requires below { AreBelow work.old.next scope.now }
    ensures { IfOk result (IsBlockFor cps.now tables.now work.old work.new (For.ArmOf scope.now site.now term)) }
{
    let mut line = Line {
        ops: Vec::new(alloc),
        scope: scope.copy(alloc)?,
        site: site.copy(alloc)?,
    };
    let last = lay_line(alloc, cps, tables, work, &mut line, term)?;
    Ok(Block {
        params: Vars::from_vec(Vec::new(alloc)),
        ops: line.ops,
        last,
    })
}

/// New parameters, and variables that are held in them.
#[derive(Drop)]
struct OpenScope {
    params: Vars,
    scope: Scope,
}

/// New parameters for some variables.
fn open_scope(alloc: Global, work: &mut Work, vars: &Vars) -> Result<OpenScope, Memory>
    ensures { IfOk result (IsOpened work.old work.new vars.now) }
{
    let count = vars.as_slice().len();
    let params = work.variables(alloc, count)?;
    let mut scope = Scope::new(alloc);
    scope.hold_all(vars.as_slice(), &params)?;
    Ok(OpenScope {
        params: Vars::from_vec(params),
        scope,
    })
}

/// A block that begins with variables.
fn begin_block(
    alloc: Global,
    cps: &Cps,
    tables: &Tables,
    work: &mut Work,
    vars: &Vars,
    site: &Site,
    term: u32,
) -> Result<Block, Memory>
    requires { KnowsFirst cps.now tables.now }
    ensures { IfOk result (IsBlockFor cps.now tables.now work.old work.new (For.Begins vars.now site.now term)) }
{
    let opened = open_scope(alloc, work, vars)?;
    let site = site.copy(alloc)?;
    let mut line = Line {
        ops: Vec::new(alloc),
        scope: opened.scope,
        site,
    };
    let last = lay_line(alloc, cps, tables, work, &mut line, term)?;
    Ok(Block {
        params: opened.params,
        ops: line.ops,
        last,
    })
}

/// The block of a CATCH in a tail place.
fn passing_block(
    alloc: Global,
    cps: &Cps,
    tables: &Tables,
    work: &mut Work,
) -> Result<Block, Memory>
    ensures { IfOk result (IsBlockFor cps.now tables.now work.old work.new For.PassesOn) }
{
    let value = work.variable()?;
    let mut params = Vec::new(alloc);
    params.push(value)?;
    Ok(Block {
        params: Vars::from_vec(params),
        ops: Vec::new(alloc),
        last: FrameEnd::Return(Arg::Var(value)),
    })
}

/// Fetches what a frame keeps, or what a closure captured, into new variables.
fn fetch_all(
    work: &mut Work,
    scope: &mut Scope,
    ops: &mut Vec<FrameOp>,
    needs: &[Var],
    from: Option<Var>,
) -> Result<(), Memory>
    requires { AreBelow work.old.next scope.old }
    ensures { OnOk result (IsFetched work.old work.new scope.old scope.new ops.old.items ops.new.items needs.now from) }
{
    for place in 0..needs.len() {
        let Ok(slot) = u32::try_from(place) else {
            return Err(Memory);
        };
        let to = work.variable()?;
        ops.push(fetch(from, to, slot))?;
        scope.hold(needs[place], to)?;
    }
    Ok(())
}

fn fetch(from: Option<Var>, to: Var, slot: u32) -> FrameOp
    ensures { result ≡ get_of from to slot }
{
    match from {
        Some(from) => FrameOp::ClosureGet { to, from, slot },
        None => FrameOp::FrameGet { to, slot },
    }
}

/// Goes on behind a frame with the body of its continuation, or, where this is a Join's, in the block of the Join.
fn go_behind(
    alloc: Global,
    cps: &Cps,
    tables: &Tables,
    work: &mut Work,
    line: &mut Line,
    param: Var,
    body: u32,
    join: Option<u32>,
) -> Result<FrameEnd, Memory>
    requires first { KnowsFirst cps.now tables.now }
    requires below { AreBelow work.old.next line.old.scope }
    ensures { IfOk result (IsGoneFrom cps.now tables.now work.old work.new line.old line.new body) }
{
    match join {
        Some(block) => {
            let last = go_to_join(
                alloc,
                cps,
                tables,
                work,
                &line.scope,
                &line.site,
                param,
                body,
                block,
            )?;
            Ok(last)
        }
        None => {
            let last = lay_line(alloc, cps, tables, work, line, body)?;
            Ok(last)
        }
    }
}

/// Goes on behind a call: the value, all that its frame keeps, and the rest.
fn return_block(
    alloc: Global,
    cps: &Cps,
    tables: &Tables,
    work: &mut Work,
    param: Var,
    body: u32,
    site: &Site,
    join: Option<u32>,
) -> Result<Block, Memory>
    requires { KnowsFirst cps.now tables.now }
    ensures { IfOk result (IsBlockFor cps.now tables.now work.old work.new (For.Resumes param body site.now join)) }
{
    let needs = needs_behind(alloc, tables, param, body)?;
    let site = site.copy(alloc)?;
    if is_celled(tables, param) {
        return Err(Memory);
    }
    if !site.is_unneeded(tables, param) {
        return Err(Memory);
    }
    if !are_few(cps, needs.len()) {
        return Err(Memory);
    }
    let value = work.variable()?;
    let mut scope = Scope::new(alloc);
    scope.hold(param, value)?;
    let mut ops = Vec::new(alloc);
    fetch_all(work, &mut scope, &mut ops, &needs, None)?;
    ops.push(FrameOp::Pop)?;
    let mut line = Line { ops, scope, site };
    let last = go_behind(alloc, cps, tables, work, &mut line, param, body, join)?;
    let mut params = Vec::new(alloc);
    params.push(value)?;
    Ok(Block {
        params: Vars::from_vec(params),
        ops: line.ops,
        last,
    })
}

/// Whether no parameter is needed from elsewhere or is a cell.
fn are_apart(tables: &Tables, params: &[Var], needs: &[Var]) -> bool
    ensures { IsTrue result → AreApart tables.now params.now needs.now }
{
    for param in params {
        if is_celled(tables, *param) || names(needs, *param) {
            return false;
        }
    }
    true
}

/// Variables behind others.
fn join_vars(alloc: Global, vars: &[Var], others: &[Var]) -> Result<Vars, Memory>
    ensures { IfOk result (λ joined. joined ≡ vars.now ++ others.now) }
{
    let mut joined = Vec::new(alloc);
    joined.extend_from_slice(vars)?;
    joined.extend_from_slice(others)?;
    Ok(Vars::from_vec(joined))
}

/// The code of the closures of a procedure: it fetches what the procedure needs, and goes on in a block for the body.
fn code_block(
    alloc: Global,
    cps: &Cps,
    tables: &Tables,
    work: &mut Work,
    l: u32,
) -> Result<Block, Memory>
    ensures { IfOk result (IsBlockFor cps.now tables.now work.old work.new (For.CodeOf l)) }
{
    let Some(lam) = cps.lams.get(l as usize) else {
        return Err(Memory);
    };
    let needs = lam_needs(tables, l);
    if !is_callable(cps, tables, &lam.params, needs) {
        return Err(Memory);
    }
    let own = work.variable()?;
    let opened = open_scope(alloc, work, &lam.params)?;
    let mut scope = opened.scope;
    let mut ops = Vec::new(alloc);
    fetch_all(work, &mut scope, &mut ops, needs, Some(own))?;
    let vars = join_vars(alloc, lam.params.as_slice(), needs)?;
    let ats = find_all(alloc, &scope, vars.as_slice())?;
    let block = work.request(Request::Begins {
        vars,
        site: Site::new(alloc, Some(lam.k)),
        term: lam.body,
    })?;
    let last = jump(alloc, block, &ats)?;
    let mut params = Vec::new(alloc);
    params.push(own)?;
    params.extend_from_slice(opened.params.as_slice())?;
    Ok(Block {
        params: Vars::from_vec(params),
        ops,
        last,
    })
}

/// The code of a method of an object that keeps some variables: it fetches them, and goes on in a block for the body.
fn method_block(
    alloc: Global,
    cps: &Cps,
    tables: &Tables,
    work: &mut Work,
    l: u32,
    kept: &Vars,
) -> Result<Block, Memory>
    ensures { IfOk result (IsBlockFor cps.now tables.now work.old work.new (For.MethodOf l kept.now)) }
{
    let Some(lam) = cps.lams.get(l as usize) else {
        return Err(Memory);
    };
    if !is_callable(cps, tables, &lam.params, kept.as_slice()) {
        return Err(Memory);
    }
    let opened = open_scope(alloc, work, &lam.params)?;
    let Some((own, rest)) = opened.params.as_slice().split_first() else {
        return Err(Memory);
    };
    let own = *own;
    let mut scope = opened.scope;
    let mut ops = Vec::new(alloc);
    fetch_all(work, &mut scope, &mut ops, kept.as_slice(), Some(own))?;
    let vars = join_vars(alloc, lam.params.as_slice(), lam_needs(tables, l))?;
    let ats = find_all(alloc, &scope, vars.as_slice())?;
    let block = work.request(Request::Begins {
        vars,
        site: Site::new(alloc, Some(lam.k)),
        term: lam.body,
    })?;
    let last = jump(alloc, block, &ats)?;
    Ok(Block {
        params: opened.params,
        ops,
        last,
    })
}

/// Whether a procedure's parameters, and what it needs, are few, and no parameter stands twice.
fn is_callable(cps: &Cps, tables: &Tables, params: &Vars, needs: &[Var]) -> bool
    ensures { IsTrue result → IsCallable cps.now tables.now params.now needs.now }
{
    let count = params.as_slice().len();
    let distinct = are_distinct(params.as_slice());
    let apart = are_apart(tables, params.as_slice(), needs);
    let few = are_few(cps, needs.len());
    count <= 20 && distinct && apart && few
}

/// The block for a request.
pub(crate) fn lay_block(
    alloc: Global,
    cps: &Cps,
    tables: &Tables,
    work: &mut Work,
    request: &Request,
) -> Result<Block, Memory>
    requires first { KnowsFirst cps.now tables.now }
    requires sees { SeesBelow work.old.next request.now }
    ensures { IfOk result (IsBlockFor cps.now tables.now work.old work.new request.now) }
{
    match request {
        Request::CodeOf(l) => {
            let block = code_block(alloc, cps, tables, work, *l)?;
            Ok(block)
        }
        Request::Begins { vars, site, term } => {
            let block = begin_block(alloc, cps, tables, work, vars, site, *term)?;
            Ok(block)
        }
        Request::ArmOf { scope, site, term } => {
            let block = arm_block(alloc, cps, tables, work, scope, site, *term)?;
            Ok(block)
        }
        Request::PassesOn => {
            let block = passing_block(alloc, cps, tables, work)?;
            Ok(block)
        }
        Request::Resumes {
            param,
            body,
            site,
            join,
        } => {
            let block = return_block(alloc, cps, tables, work, *param, *body, site, *join)?;
            Ok(block)
        }
        Request::MethodOf { lam, kept } => {
            let block = method_block(alloc, cps, tables, work, *lam, kept)?;
            Ok(block)
        }
    }
}
