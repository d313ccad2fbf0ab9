// The procedures of globals and the defaults of operations, which stand first in a program.
ghost use Rattle.std.specs.Prelude.{◌≡◌, ◌+◌, IfOk, OnOk, length, filter};
ghost use Rattle.t_core.specs.declared.forms.FormKind.TheVariants as Kind;
ghost use Rattle.cps_ir.specs.Parts.{is_procedure};
ghost use Rattle.cps_convert.specs.Claims.{HasMarks};
ghost use Rattle.unit_conversion.specs.FirstLams.{HasKind, FirstsMade, FirstAdded, has_default, picked_globals, picked_ops};

use crate::sites::Sites;
use cps_convert::{Conversion, root};
use cps_ir::Lam;
use std::alloc::Global;
use t_base::{Global1, GlobalKind, Memory, OpInfo};
use t_core::{FormKind, UnitCore};

fn is_procedure(global: Global1) -> bool
    ensures { result ≡ is_procedure global }
{
    matches!(global.kind, GlobalKind::Proc)
}

fn count_globals(globals: &[Global1]) -> usize
    ensures { result ≡ length (filter is_procedure globals.now) }
{
    let mut count = 0;
    for global in globals {
        if is_procedure(*global) {
            count += 1;
        }
    }
    count
}

fn count_ops(ops: &[OpInfo]) -> usize
    ensures { result ≡ length (filter has_default ops.now) }
{
    let mut count = 0;
    for op in ops {
        if op.default {
            count += 1;
        }
    }
    count
}

/// How many procedures stand first in the program of a unit. The only error is a number that 32 bits don't hold.
pub(crate) fn count_firsts(unit: &UnitCore) -> Result<u32, Memory>
    ensures { IfOk result (λ n. n ≡ length (filter is_procedure unit.now.shared.globals.items) + length (filter has_default unit.now.shared.ops.items)) }
{
    let globals = count_globals(unit.shared.globals.as_slice());
    let ops = count_ops(unit.shared.ops.as_slice());
    match u32::try_from(globals.saturating_add(ops)) {
        Ok(count) => Ok(count),
        Err(_) => Err(Memory),
    }
}

/// The place that a table has for the DEFINE of a global, if that stands there.
fn define_at(unit: &UnitCore, table: &[u32], g: u32) -> Result<u32, Memory>
    ensures { IfOk result (HasKind unit.now (Kind.Define g)) }
{
    let Some(at) = table.get(g as usize) else {
        return Err(Memory);
    };
    let Some(form) = unit.forms.get(*at as usize) else {
        return Err(Memory);
    };
    match form.kind {
        FormKind::Define(h) => {
            if h == g {
                return Ok(*at);
            }
            Err(Memory)
        }
        _ => Err(Memory),
    }
}

/// The place that a table has for the DEFINE-OPERATION of an operation, if that stands there.
fn operation_at(unit: &UnitCore, table: &[u32], o: u32) -> Result<u32, Memory>
    ensures { IfOk result (HasKind unit.now (Kind.Operation o)) }
{
    let Some(at) = table.get(o as usize) else {
        return Err(Memory);
    };
    let Some(form) = unit.forms.get(*at as usize) else {
        return Err(Memory);
    };
    match form.kind {
        FormKind::Operation(p) => {
            if p == o {
                return Ok(*at);
            }
            Err(Memory)
        }
        _ => Err(Memory),
    }
}

/// Puts the procedure of a global last, where a DEFINE of a LAMBDA defines it.
fn add_global(
    alloc: Global,
    unit: &UnitCore,
    marks: &[bool],
    table: &[u32],
    made: &mut Conversion,
    g: u32,
    info: Global1,
    lams: &mut Vec<Lam>,
) -> Result<(), Memory>
    ensures { HasMarks unit.now marks.now → OnOk result (FirstAdded unit.now marks.now made.old made.new (Kind.Define g) (is_procedure info) lams.old.items lams.new.items) }
{
    if is_procedure(info) {
        let at = define_at(unit, table, g)?;
        let lam = root(alloc, unit, marks, made, at)?;
        lams.push(lam)?;
    }
    Ok(())
}

/// Puts the default of an operation last, where it has one.
fn add_default(
    alloc: Global,
    unit: &UnitCore,
    marks: &[bool],
    table: &[u32],
    made: &mut Conversion,
    o: u32,
    info: OpInfo,
    lams: &mut Vec<Lam>,
) -> Result<(), Memory>
    ensures { HasMarks unit.now marks.now → OnOk result (FirstAdded unit.now marks.now made.old made.new (Kind.Operation o) (has_default info) lams.old.items lams.new.items) }
{
    if info.default {
        let at = operation_at(unit, table, o)?;
        let lam = root(alloc, unit, marks, made, at)?;
        lams.push(lam)?;
    }
    Ok(())
}

/// The procedures of the globals that a DEFINE of a LAMBDA defines, in order. The only error is the want of memory.
pub(crate) fn global_lams(
    alloc: Global,
    unit: &UnitCore,
    marks: &[bool],
    sites: &Sites,
    made: &mut Conversion,
) -> Result<Vec<Lam>, Memory>
    ensures { HasMarks unit.now marks.now → IfOk result (λ lams. FirstsMade unit.now marks.now made.old made.new Kind.Define (picked_globals unit.now) lams.items) }
{
    let mut lams = Vec::new(alloc);
    let mut at = 0;
    'globals: while at < unit.shared.globals.len() {
        let Ok(g) = u32::try_from(at) else {
            return Err(Memory);
        };
        let info = unit.shared.globals[at];
        let table = sites.globals.as_slice();
        add_global(alloc, unit, marks, table, made, g, info, &mut lams)?;
        at += 1;
    }
    Ok(lams)
}

/// The defaults of the operations that have one, in order. The only error is the want of memory.
pub(crate) fn default_lams(
    alloc: Global,
    unit: &UnitCore,
    marks: &[bool],
    sites: &Sites,
    made: &mut Conversion,
) -> Result<Vec<Lam>, Memory>
    ensures { HasMarks unit.now marks.now → IfOk result (λ lams. FirstsMade unit.now marks.now made.old made.new Kind.Operation (picked_ops unit.now) lams.items) }
{
    let mut lams = Vec::new(alloc);
    let mut at = 0;
    'ops: while at < unit.shared.ops.len() {
        let Ok(o) = u32::try_from(at) else {
            return Err(Memory);
        };
        let info = unit.shared.ops[at];
        let table = sites.ops.as_slice();
        add_default(alloc, unit, marks, table, made, o, info, &mut lams)?;
        at += 1;
    }
    Ok(lams)
}
