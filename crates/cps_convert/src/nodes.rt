// Nodes become terms, the last one first.
ghost use Rattle.std.specs.Prelude.{IfOk};
ghost use Rattle.t_core.specs.declared.forms.Core.TheVariants as Node;
ghost use Rattle.cps_convert.specs.Claims.{HasMarks, Converted, LamConverted};
ghost use Rattle.cps_convert.specs.Operands.{JobsConverted};
ghost use Rattle.cps_convert.specs.Kinds.{KindConverted, LambdaMade, LambdasMade, MethodMade};

use crate::conversion::Conversion;
use crate::operands::{Job, let_operands, operand};
use crate::ready::node_at;
use crate::terms::{give_procedure, joined, last_term, named};
use crate::variables::{
    arguments, bind_assigned, bind_one, name_for, names_for, set_assigned, unset,
};
use cps_ir::{Arg, Cont, Lam, Term};
use std::alloc::Global;
use t_base::{Keys, Memory, Var, Vars};
use t_core::{Core, Method, UnitCore};

/// The values of nodes go to their variables, from left to right, in front of the term at a place. The nodes stand before the one at
/// `key`.
#[cycle(nodes)]
pub(crate) fn evaluate(
    alloc: Global,
    unit: &UnitCore,
    marks: &[bool],
    form: u32,
    made: &mut Conversion,
    key: u32,
    jobs: Vec<Job>,
    last: u32,
) -> Result<u32, Memory>
    ensures { HasMarks unit.now marks.now → IfOk result (λ t. JobsConverted unit.now marks.now form made.old made.new key jobs.items t last) }
{
    let mut waiting = jobs;
    let mut place = last;
    'jobs: while let Some(job) = waiting.pop() {
        let k = Cont::Lam {
            param: job.var,
            body: place,
        };
        place = node(alloc, unit, marks, form, made, key, job.node, k)?;
    }
    Ok(place)
}

/// The procedure of a LAMBDA or a method, whose body stands before the node at `key`.
#[cycle(nodes)]
pub(crate) fn procedure(
    alloc: Global,
    unit: &UnitCore,
    marks: &[bool],
    form: u32,
    made: &mut Conversion,
    key: u32,
    params: &[Var],
    body: u32,
) -> Result<Lam, Memory>
    ensures { HasMarks unit.now marks.now → IfOk result (LamConverted unit.now marks.now form made.old made.new key params.now body) }
{
    let names = names_for(alloc, made, marks, params)?;
    let k = made.fresh()?;
    let first = node(alloc, unit, marks, form, made, key, body, Cont::Var(k))?;
    let args = arguments(alloc, names.as_slice())?;
    let start = bind_assigned(made, marks, params, args.as_slice(), first)?;
    Ok(Lam {
        params: Vars::from_vec(names),
        k,
        body: start,
    })
}

/// The place of the procedure of the LAMBDA at a node.
#[cycle(nodes)]
fn lambda(
    alloc: Global,
    unit: &UnitCore,
    marks: &[bool],
    form: u32,
    made: &mut Conversion,
    key: u32,
) -> Result<u32, Memory>
    ensures { HasMarks unit.now marks.now → IfOk result (LambdaMade unit.now marks.now form made.old made.new key) }
{
    match node_at(unit, form, key) {
        Some(Core::Lambda { params, body }) => {
            let lam = procedure(
                alloc,
                unit,
                marks,
                form,
                made,
                key,
                params.as_slice(),
                *body,
            )?;
            let place = made.add_procedure(lam, form, key)?;
            Ok(place)
        }
        _ => Err(Memory),
    }
}

/// The places of the procedures of LAMBDAs, whose nodes stand before the one at `above`.
#[cycle(nodes)]
fn lambdas(
    alloc: Global,
    unit: &UnitCore,
    marks: &[bool],
    form: u32,
    made: &mut Conversion,
    above: u32,
    keys: &[u32],
) -> Result<Vec<u32>, Memory>
    ensures { HasMarks unit.now marks.now → IfOk result (λ lams. LambdasMade unit.now marks.now form made.old made.new above keys.now lams.items) }
{
    let mut lams = Vec::new(alloc);
    'keys: for key in keys {
        if *key >= above {
            return Err(Memory);
        }
        let place = lambda(alloc, unit, marks, form, made, *key)?;
        lams.push(place)?;
    }
    Ok(lams)
}

/// The place of the procedure of a method of the OBJECT at a node.
#[cycle(nodes)]
fn method(
    alloc: Global,
    unit: &UnitCore,
    marks: &[bool],
    form: u32,
    made: &mut Conversion,
    key: u32,
    method: &Method,
) -> Result<u32, Memory>
    ensures { HasMarks unit.now marks.now → IfOk result (MethodMade unit.now marks.now form made.old made.new key method.now) }
{
    let params = method.params.as_slice();
    let lam = procedure(alloc, unit, marks, form, made, key, params, method.body)?;
    let place = made.add_procedure(lam, form, key)?;
    Ok(place)
}

/// The term of an IF: its arms with one continuation, and the test in front of them.
#[cycle(nodes)]
fn if_node(
    alloc: Global,
    unit: &UnitCore,
    marks: &[bool],
    form: u32,
    made: &mut Conversion,
    key: u32,
    test: u32,
    yes: u32,
    no: u32,
    k: Cont,
) -> Result<u32, Memory>
    ensures { HasMarks unit.now marks.now → IfOk result (KindConverted unit.now marks.now form made.old made.new key (Node.If test yes no) k) }
{
    let name = named(made, k)?;
    let first = node(alloc, unit, marks, form, made, key, yes, name)?;
    let second = node(alloc, unit, marks, form, made, key, no, name)?;
    let mut jobs = Vec::new(alloc);
    let arg = operand(unit, marks, form, made, test, &mut jobs)?;
    let last = made.add(Term::If {
        test: arg,
        yes: first,
        no: second,
    })?;
    let rest = evaluate(alloc, unit, marks, form, made, key, jobs, last)?;
    let place = joined(made, k, name, rest)?;
    Ok(place)
}

/// The terms of a BLOCK: the last item with the continuation, each other one with a variable that is used nowhere.
#[cycle(nodes)]
fn block(
    alloc: Global,
    unit: &UnitCore,
    marks: &[bool],
    form: u32,
    made: &mut Conversion,
    key: u32,
    items: &[u32],
    k: Cont,
) -> Result<u32, Memory>
    ensures { HasMarks unit.now marks.now → IfOk result (KindConverted unit.now marks.now form made.old made.new key (Node.Block items.now) k) }
{
    let mut at = items.len();
    if at == 0 {
        return Err(Memory);
    }
    at -= 1;
    let mut place = node(alloc, unit, marks, form, made, key, items[at], k)?;
    'items: while at > 0 {
        at -= 1;
        let unused = made.fresh()?;
        let next = Cont::Lam {
            param: unused,
            body: place,
        };
        place = node(alloc, unit, marks, form, made, key, items[at], next)?;
    }
    Ok(place)
}

/// The terms of a LET: the body, the assigned variables in front of it, and all values in front of these.
#[cycle(nodes)]
fn let_node(
    alloc: Global,
    unit: &UnitCore,
    marks: &[bool],
    form: u32,
    made: &mut Conversion,
    key: u32,
    vars: &[Var],
    values: &[u32],
    body: u32,
    k: Cont,
) -> Result<u32, Memory>
    ensures { HasMarks unit.now marks.now → IfOk result (KindConverted unit.now marks.now form made.old made.new key (Node.Let vars.now values.now body) k) }
{
    if vars.len() != values.len() {
        return Err(Memory);
    }
    let start = node(alloc, unit, marks, form, made, key, body, k)?;
    let mut jobs = Vec::new(alloc);
    let args = let_operands(alloc, unit, marks, form, made, vars, values, &mut jobs)?;
    let behind = bind_assigned(made, marks, vars, args.as_slice(), start)?;
    let place = evaluate(alloc, unit, marks, form, made, key, jobs, behind)?;
    Ok(place)
}

/// The terms of a LABELS: the body, the assigned names set in front of it, one Labels of all LAMBDAs, and what the assigned names have first.
#[cycle(nodes)]
fn labels(
    alloc: Global,
    unit: &UnitCore,
    marks: &[bool],
    form: u32,
    made: &mut Conversion,
    key: u32,
    vars: &[Var],
    keys: &[u32],
    body: u32,
    k: Cont,
) -> Result<u32, Memory>
    ensures { HasMarks unit.now marks.now → IfOk result (KindConverted unit.now marks.now form made.old made.new key (Node.Labels vars.now keys.now body) k) }
{
    let lams = lambdas(alloc, unit, marks, form, made, key, keys)?;
    let start = node(alloc, unit, marks, form, made, key, body, k)?;
    let names = names_for(alloc, made, marks, vars)?;
    let behind = set_assigned(made, marks, vars, names.as_slice(), start)?;
    let args = unset(alloc, marks, vars)?;
    let at = made.add(Term::Labels {
        vars: Vars::from_vec(names),
        lams: Keys::from_vec(lams),
        body: behind,
    })?;
    let place = bind_assigned(made, marks, vars, args.as_slice(), at)?;
    Ok(place)
}

/// The terms of a CATCH: the body goes to the end of the catch, and from there to the continuation.
#[cycle(nodes)]
fn catch(
    alloc: Global,
    unit: &UnitCore,
    marks: &[bool],
    form: u32,
    made: &mut Conversion,
    key: u32,
    var: Var,
    body: u32,
    k: Cont,
) -> Result<u32, Memory>
    ensures { HasMarks unit.now marks.now → IfOk result (KindConverted unit.now marks.now form made.old made.new key (Node.Catch var body) k) }
{
    let outer = named(made, k)?;
    let value = made.fresh()?;
    let end = made.add(Term::Uncatch {
        k: outer,
        value: Arg::Var(value),
    })?;
    let back = Cont::Lam {
        param: value,
        body: end,
    };
    let start = node(alloc, unit, marks, form, made, key, body, back)?;
    let name = name_for(made, marks, var)?;
    let inner = bind_one(made, marks, var, Arg::Var(name), start)?;
    let rest = made.add(Term::Catch {
        escape: name,
        body: inner,
        k: outer,
    })?;
    let place = joined(made, k, outer, rest)?;
    Ok(place)
}

/// The terms of an OBJECT: its methods are made first, then its procedure part is evaluated.
#[cycle(nodes)]
fn object(
    alloc: Global,
    unit: &UnitCore,
    marks: &[bool],
    form: u32,
    made: &mut Conversion,
    key: u32,
    proc: u32,
    methods: &[Method],
    k: Cont,
) -> Result<u32, Memory>
    ensures { HasMarks unit.now marks.now → IfOk result (KindConverted unit.now marks.now form made.old made.new key (Node.Object proc methods.now) k) }
{
    let mut ops = Vec::new(alloc);
    let mut lams = Vec::new(alloc);
    'methods: for m in methods {
        let place = method(alloc, unit, marks, form, made, key, m)?;
        ops.push(m.op)?;
        lams.push(place)?;
    }
    let mut jobs = Vec::new(alloc);
    let arg = operand(unit, marks, form, made, proc, &mut jobs)?;
    let last = made.add(Term::Object {
        proc: arg,
        ops: Keys::from_vec(ops),
        methods: Keys::from_vec(lams),
        k,
    })?;
    let place = evaluate(alloc, unit, marks, form, made, key, jobs, last)?;
    Ok(place)
}

/// The place of the term that stands for a node, whose value goes to the continuation. The node stands before the one at `above`. It
/// recurs no deeper than the form has nodes. The only error is the want of memory.
#[cycle(nodes)]
pub(crate) fn node(
    alloc: Global,
    unit: &UnitCore,
    marks: &[bool],
    form: u32,
    made: &mut Conversion,
    above: u32,
    key: u32,
    k: Cont,
) -> Result<u32, Memory>
    ensures { HasMarks unit.now marks.now → IfOk result (Converted unit.now marks.now form made.old made.new above key k) }
{
    if key >= above {
        return Err(Memory);
    }
    let Some(core) = node_at(unit, form, key) else {
        return Err(Memory);
    };
    match core {
        Core::Lambda { .. } => {
            let l = lambda(alloc, unit, marks, form, made, key)?;
            let place = give_procedure(alloc, made, k, l)?;
            Ok(place)
        }
        Core::If { test, yes, no } => {
            let place = if_node(alloc, unit, marks, form, made, key, *test, *yes, *no, k)?;
            Ok(place)
        }
        Core::Block(items) => {
            let place = block(alloc, unit, marks, form, made, key, items.as_slice(), k)?;
            Ok(place)
        }
        Core::Let { vars, values, body } => {
            let vars = vars.as_slice();
            let values = values.as_slice();
            let place = let_node(alloc, unit, marks, form, made, key, vars, values, *body, k)?;
            Ok(place)
        }
        Core::Labels {
            vars,
            lambdas: keys,
            body,
        } => {
            let vars = vars.as_slice();
            let keys = keys.as_slice();
            let place = labels(alloc, unit, marks, form, made, key, vars, keys, *body, k)?;
            Ok(place)
        }
        Core::Catch { var, body } => {
            let place = catch(alloc, unit, marks, form, made, key, *var, *body, k)?;
            Ok(place)
        }
        Core::Object { proc, methods } => {
            let methods = methods.as_slice();
            let place = object(alloc, unit, marks, form, made, key, *proc, methods, k)?;
            Ok(place)
        }
        core => {
            let mut jobs = Vec::new(alloc);
            let last = last_term(alloc, unit, marks, form, made, core, k, &mut jobs)?;
            let place = evaluate(alloc, unit, marks, form, made, key, jobs, last)?;
            Ok(place)
        }
    }
}
