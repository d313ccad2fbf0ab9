// Objects.
ghost use Rattle.std.specs.Prelude.{◌≡◌, ◌∷◌, [], ◌<◌, ◌≤◌, ℕ, IfOk, IsTrue};
ghost use Rattle.cps_ir.specs.declared.terms.Term.TheVariants as Node;
ghost use Rattle.layout_tables.specs.Sketches.{AreBelow, KnowsFirst};
ghost use Rattle.layout_steps.specs.Steps.{AreMethods, IsLaid};

use crate::arguments::prepare;
use crate::giving::give_new;
use cps_ir::{Arg, Cont, Cps};
use frame_ir::{FrameOp, Template};
use layout_tables::{Line, Request, Step, Tables, Work, find_all, lam_needs, names};
use std::alloc::Global;
use t_base::{Keys, Memory, Var, Vars};

/// Adds variables that aren't there yet.
fn add_needs(needs: &mut Vec<Var>, vars: &[Var]) -> Result<(), Memory> {
    for var in vars {
        if !names(needs, *var) {
            needs.push(*var)?;
        }
    }
    Ok(())
}

/// What methods need together, each variable once.
fn methods_need(alloc: Global, tables: &Tables, methods: &[u32]) -> Result<Vec<Var>, Memory> {
    let mut needs = Vec::new(alloc);
    for l in methods {
        add_needs(&mut needs, lam_needs(tables, *l))?;
    }
    Ok(needs)
}

/// Whether so many variables are few enough for a record.
fn is_small(cps: &Cps, count: usize) -> bool
    ensures { IsTrue result → count ≤ cps.now.shared.size }
{
    count <= cps.shared.size as usize
}

/// Asks for the code of each method of an object that keeps these variables.
fn request_methods(
    alloc: Global,
    work: &mut Work,
    methods: &[u32],
    needs: &[Var],
) -> Result<Vec<u32>, Memory>
    ensures { IfOk result (λ codes. AreMethods work.old work.new methods.now needs.now codes.items) }
{
    let mut codes = Vec::new(alloc);
    for lam in methods {
        let kept = Vars::from_vec(Vec::from_slice(alloc, needs)?);
        let code = work.request(Request::MethodOf { lam: *lam, kept })?;
        codes.push(code)?;
    }
    Ok(codes)
}

/// An object, whose methods keep what they need together.
pub fn lay_object(
    alloc: Global,
    cps: &Cps,
    tables: &Tables,
    work: &mut Work,
    line: &mut Line,
    term: u32,
    proc: Arg,
    ops: &Keys,
    methods: &Keys,
    k: Cont,
) -> Result<Step, Memory>
    requires first { KnowsFirst cps.now tables.now }
    requires below { AreBelow work.old.next line.old.scope }
    ensures { IfOk result (IsLaid cps.now tables.now work.old work.new line.old line.new term (Node.Object proc ops.now methods.now k)) }
{
    let keys = ops.as_slice();
    let lams = methods.as_slice();
    if keys.len() != lams.len() {
        return Err(Memory);
    }
    let proc = prepare(alloc, cps, tables, work, &line.scope, &mut line.ops, proc)?;
    let needs = methods_need(alloc, tables, lams)?;
    if !is_small(cps, needs.len()) {
        return Err(Memory);
    }
    let kept = find_all(alloc, &line.scope, &needs)?;
    let codes = request_methods(alloc, work, lams, &needs)?;
    let named = Vec::from_slice(alloc, keys)?;
    let template = work.template(Template {
        ops: Keys::from_vec(named),
        codes: Keys::from_vec(codes),
    })?;
    let to = work.variable()?;
    line.ops.push(FrameOp::Object {
        to,
        template,
        proc,
        kept: Vars::from_vec(kept),
    })?;
    let step = give_new(alloc, cps, tables, work, line, term, k, to)?;
    Ok(step)
}
