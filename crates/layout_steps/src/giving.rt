// What goes on behind a value: a return, a jump, or the rest of the block.
ghost use Rattle.std.specs.Prelude.{◌≡◌, ◌∷◌, [], ◌<◌, ◌≤◌, ℕ, IfOk, OnOk, IsTrue};
ghost use Rattle.cps_ir.specs.declared.args.Arg.TheVariants as Argument;
ghost use Rattle.layout_relation.specs.Contexts.{IsFresh};
ghost use Rattle.layout_relation.specs.Laid.{Gives, GoesOn, most_needs, numbers, variables};
ghost use Rattle.layout_tables.specs.Sketches.{AreBelow, Leads, needs_behind, context_at, context_of};
ghost use Rattle.layout_steps.specs.Steps.{Ends, Arrives, IsAskedFor, IsJumpTo, IsNewJump, IsGiven, MayGoOn, held_also};
ghost use Rattle.frame_ir.specs.declared.forms.FrameEnd.TheVariants as Last;

use crate::arguments::push_variables;
use cps_ir::{Arg, Args, Cont, Cps};
use frame_ir::FrameEnd;
use layout_tables::{
    Join, Line, Request, Scope, Site, Step, Tables, Way, Work, are_same, find_all, is_celled,
    names, needs_behind, rank_of, term_needs,
};
use std::alloc::Global;
use t_base::{Memory, Var, Vars};

/// Whether so many variables are few enough for a frame or a jump.
pub fn are_few(cps: &Cps, count: usize) -> bool
    ensures { IsTrue result → count ≤ most_needs cps.now }
{
    count <= (cps.shared.size as usize).saturating_add(2)
}

/// Jumps to a block with variables.
pub fn jump(alloc: Global, block: u32, vars: &[Var]) -> Result<FrameEnd, Memory>
    ensures { IfOk result (λ last. last ≡ Last.Jump block (variables vars.now)) }
{
    let mut args = Vec::new(alloc);
    push_variables(&mut args, vars)?;
    Ok(FrameEnd::Jump {
        block,
        args: Args::from_vec(args),
    })
}

/// Jumps to a block with a value and variables.
fn jump_with(alloc: Global, block: u32, value: Arg, vars: &[Var]) -> Result<FrameEnd, Memory>
    ensures { IfOk result (λ last. last ≡ Last.Jump block (value ∷ variables vars.now)) }
{
    let mut args = Vec::new(alloc);
    args.push(value)?;
    push_variables(&mut args, vars)?;
    Ok(FrameEnd::Jump {
        block,
        args: Args::from_vec(args),
    })
}

/// Where the variables are held that are needed behind a continuation with this parameter and body, which is known at a site.
fn arrive(
    alloc: Global,
    cps: &Cps,
    tables: &Tables,
    scope: &Scope,
    site: &Site,
    param: Var,
    body: u32,
) -> Result<Vec<Var>, Memory>
    ensures { IfOk result (λ ats. Arrives cps.now tables.now scope.now site.now param body ats.items) }
{
    let needs = needs_behind(alloc, tables, param, body)?;
    let ats = find_all(alloc, scope, &needs)?;
    let plain = !is_celled(tables, param);
    let unneeded = site.is_unneeded(tables, param);
    let few = are_few(cps, ats.len());
    if plain && unneeded && few {
        return Ok(ats);
    }
    Err(Memory)
}

/// The variables of a block that begins behind a continuation: its parameter and what is needed.
pub(crate) fn begin_with(
    alloc: Global,
    tables: &Tables,
    param: Var,
    body: u32,
) -> Result<Vars, Memory>
    ensures { IfOk result (λ vars. numbers vars ≡ param.0 ∷ needs_behind tables.now param body) }
{
    let needs = needs_behind(alloc, tables, param, body)?;
    let mut vars = Vec::new(alloc);
    vars.push(param)?;
    vars.extend_from_slice(&needs)?;
    Ok(Vars::from_vec(vars))
}

/// Whether a block was asked for that begins with these variables and lays out a term there.
fn is_asked_for(work: &Work, block: u32, vars: &Vars, site: &Site, term: u32) -> bool
    ensures { IsTrue result → IsAskedFor work.now block vars.now site.now term }
{
    match work.requests.get(block as usize) {
        Some(
            Request::Begins {
                vars: own_vars,
                site: own_site,
                term: own_term,
            },
        ) => {
            *own_term == term
                && own_site.is_same(site)
                && are_same(own_vars.as_slice(), vars.as_slice())
        }
        _ => false,
    }
}

/// Gives a value to a Join, which is known at a site.
fn give_join(
    alloc: Global,
    cps: &Cps,
    tables: &Tables,
    work: &Work,
    scope: &Scope,
    site: &Site,
    join: Join,
    value: Arg,
) -> Result<FrameEnd, Memory>
    ensures { IfOk result (IsJumpTo cps.now tables.now work.now scope.now site.now join.block join.param join.body value) }
{
    let ats = arrive(alloc, cps, tables, scope, site, join.param, join.body)?;
    let vars = begin_with(alloc, tables, join.param, join.body)?;
    if !is_asked_for(work, join.block, &vars, site, join.body) {
        return Err(Memory);
    }
    let last = jump_with(alloc, join.block, value, &ats)?;
    Ok(last)
}

/// Gives a value to a continuation that is written out, in a block of its own.
fn give_block(
    alloc: Global,
    cps: &Cps,
    tables: &Tables,
    work: &mut Work,
    scope: &Scope,
    site: &Site,
    param: Var,
    body: u32,
    value: Arg,
) -> Result<FrameEnd, Memory>
    ensures { IfOk result (IsNewJump cps.now tables.now work.old work.new scope.now site.now param body value) }
{
    let ats = arrive(alloc, cps, tables, scope, site, param, body)?;
    let vars = begin_with(alloc, tables, param, body)?;
    let same = site.copy(alloc)?;
    let block = work.request(Request::Begins {
        vars,
        site: same,
        term: body,
    })?;
    let last = jump_with(alloc, block, value, &ats)?;
    Ok(last)
}

/// Gives a value to a continuation that has a name.
fn give_named(
    alloc: Global,
    cps: &Cps,
    tables: &Tables,
    work: &Work,
    scope: &Scope,
    site: &Site,
    k: Var,
    value: Arg,
) -> Result<FrameEnd, Memory>
    ensures { IfOk result (IsGiven cps.now tables.now work.now scope.now site.now k value) }
{
    match site.way(k) {
        Way::Leaves if site.has_no_catch() => Ok(FrameEnd::Return(value)),
        Way::Meets { join, place } => {
            let outside = site.outside(alloc, place)?;
            let last = give_join(alloc, cps, tables, work, scope, &outside, join, value)?;
            Ok(last)
        }
        _ => Err(Memory),
    }
}

/// Whether a variable may be bound at a place.
pub fn is_fresh(tables: &Tables, scope: &Scope, site: &Site, var: Var) -> bool
    ensures { IsTrue result → IsFresh (context_at tables.now scope.now site.now) var.0 }
{
    scope.lacks(var) && site.is_unneeded(tables, var)
}

/// Goes on in place, with a variable that is bound to a value or that isn't needed.
fn go_on(
    tables: &Tables,
    line: &mut Line,
    term: u32,
    param: Var,
    body: u32,
    at: Option<Var>,
) -> Result<(), Memory>
    ensures same { line.new.ops ≡ line.old.ops }
    ensures site { line.new.site ≡ line.old.site }
    ensures scope { OnOk result (line.new.scope ≡ held_also param at line.old.scope) }
    ensures may { OnOk result (MayGoOn tables.now line.old term param body) }
{
    let fresh = is_fresh(tables, &line.scope, &line.site, param);
    let plain = !is_celled(tables, param);
    let lower = rank_of(tables, body) < rank_of(tables, term);
    if !(fresh && plain && lower) {
        return Err(Memory);
    }
    match at {
        Some(at) => line.scope.hold(param, at),
        None => Ok(()),
    }
}

/// Gives the value of a new variable to a continuation.
pub(crate) fn give_new(
    alloc: Global,
    cps: &Cps,
    tables: &Tables,
    work: &mut Work,
    line: &mut Line,
    term: u32,
    k: Cont,
    to: Var,
) -> Result<Step, Memory>
    requires below { AreBelow work.old.next line.old.scope }
    requires new { to.0 < work.old.next }
    ensures leads { IfOk result (Leads tables.now cps.now work.old work.new [] line.new (λ v ops last. Gives cps.now v (context_of tables.now line.old) term k (Argument.Var to) ops last)) }
    ensures same { line.new.ops ≡ line.old.ops }
{
    match k {
        Cont::Lam { param, body } => {
            go_on(tables, line, term, param, body, Some(to))?;
            Ok(Step::Next(body))
        }
        Cont::Var(j) => {
            let last = give_named(
                alloc,
                cps,
                tables,
                work,
                &line.scope,
                &line.site,
                j,
                Arg::Var(to),
            )?;
            Ok(Step::Done(last))
        }
    }
}

/// Gives a value to a continuation.
pub(crate) fn give_value(
    alloc: Global,
    cps: &Cps,
    tables: &Tables,
    work: &mut Work,
    line: &mut Line,
    term: u32,
    k: Cont,
    value: Arg,
) -> Result<Step, Memory>
    requires { AreBelow work.old.next line.old.scope }
    ensures leads { IfOk result (Leads tables.now cps.now work.old work.new [] line.new (λ v ops last. Gives cps.now v (context_of tables.now line.old) term k value ops last)) }
    ensures same { line.new.ops ≡ line.old.ops }
{
    match k {
        Cont::Lam { param, body } => {
            if names(term_needs(tables, body), param) {
                let last = give_block(
                    alloc,
                    cps,
                    tables,
                    work,
                    &line.scope,
                    &line.site,
                    param,
                    body,
                    value,
                )?;
                return Ok(Step::Done(last));
            }
            go_on(tables, line, term, param, body, None)?;
            Ok(Step::Next(body))
        }
        Cont::Var(j) => {
            let last = give_named(alloc, cps, tables, work, &line.scope, &line.site, j, value)?;
            Ok(Step::Done(last))
        }
    }
}

/// Gives a value to a continuation in a block of its own, or by a return or a jump, so that this block ends.
pub(crate) fn give_away(
    alloc: Global,
    cps: &Cps,
    tables: &Tables,
    work: &mut Work,
    scope: &Scope,
    site: &Site,
    k: Cont,
    value: Arg,
) -> Result<FrameEnd, Memory>
    ensures { IfOk result (λ last. Ends tables.now work.old work.new last (λ v. (t : ℕ) → Gives cps.now v (context_at tables.now scope.now site.now) t k value [] last)) }
{
    match k {
        Cont::Lam { param, body } => {
            let last = give_block(alloc, cps, tables, work, scope, site, param, body, value)?;
            Ok(last)
        }
        Cont::Var(j) => {
            let last = give_named(alloc, cps, tables, work, scope, site, j, value)?;
            Ok(last)
        }
    }
}

/// Goes on with a term in a block of its own.
pub fn go_to(
    alloc: Global,
    cps: &Cps,
    tables: &Tables,
    work: &mut Work,
    scope: &Scope,
    site: &Site,
    term: u32,
) -> Result<FrameEnd, Memory>
    ensures { IfOk result (λ last. Ends tables.now work.old work.new last (λ v. GoesOn cps.now v (context_at tables.now scope.now site.now) term [] last)) }
{
    let needs = term_needs(tables, term);
    let ats = find_all(alloc, scope, needs)?;
    if !are_few(cps, ats.len()) {
        return Err(Memory);
    }
    let vars = Vars::from_vec(Vec::from_slice(alloc, needs)?);
    let same = site.copy(alloc)?;
    let block = work.request(Request::Begins {
        vars,
        site: same,
        term,
    })?;
    let last = jump(alloc, block, &ats)?;
    Ok(last)
}

/// Goes on in the block of a Join, which was asked for, with its parameter and what is needed behind it.
pub fn go_to_join(
    alloc: Global,
    cps: &Cps,
    tables: &Tables,
    work: &Work,
    scope: &Scope,
    site: &Site,
    param: Var,
    body: u32,
    block: u32,
) -> Result<FrameEnd, Memory>
    ensures { IfOk result (λ last. Ends tables.now work.now work.now last (λ v. GoesOn cps.now v (context_at tables.now scope.now site.now) body [] last)) }
{
    let vars = begin_with(alloc, tables, param, body)?;
    let ats = find_all(alloc, scope, vars.as_slice())?;
    if !are_few(cps, ats.len().saturating_sub(1)) {
        return Err(Memory);
    }
    if !is_asked_for(work, block, &vars, site, body) {
        return Err(Memory);
    }
    let last = jump(alloc, block, &ats)?;
    Ok(last)
}
