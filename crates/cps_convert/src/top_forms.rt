// Forms become terms, the last one first.
ghost use Rattle.std.specs.Prelude.{◌≡◌, IfOk};
ghost use Rattle.t_base.specs.declared.shared_parts.Const.TheVariants as Constant;
ghost use Rattle.t_core.specs.Whole.{is_lambda_at};
ghost use Rattle.cps_ir.specs.declared.args.Arg.TheVariants as Argument;
ghost use Rattle.cps_conversion.specs.Conversion.{name_of_global, name_of_op};
ghost use Rattle.cps_convert.specs.Claims.{HasMarks};
ghost use Rattle.cps_convert.specs.Forms.{Gives, GivesBefore, InitConverted, FormConverted, FormsConverted};

use crate::conversion::Conversion;
use crate::nodes::{evaluate, node};
use crate::operands::operand;
use crate::ready::is_proc;
use cps_ir::{Arg, Cont, Term};
use std::alloc::Global;
use t_base::{Const, Memory};
use t_core::{Core, Form, FormKind, UnitCore};

/// The name of a global, if it is there.
fn name_of_global(unit: &UnitCore, g: u32) -> Option<Arg>
    ensures { result ≡ name_of_global unit.now.shared g }
{
    let info = unit.shared.globals.get(g as usize)?;
    Some(Arg::Const(Const::Sym(info.name)))
}

/// The name of an operation, if it is there.
fn name_of_op(unit: &UnitCore, o: u32) -> Option<Arg>
    ensures { result ≡ name_of_op unit.now.shared o }
{
    let info = unit.shared.ops.get(o as usize)?;
    Some(Arg::Const(Const::Sym(info.name)))
}

/// The argument that stands for what a form gives: the name of what it defines, or else a new variable.
fn given(unit: &UnitCore, made: &mut Conversion, kind: FormKind) -> Result<Arg, Memory>
    ensures { IfOk result (Gives unit.now made.old made.new kind) }
{
    match kind {
        FormKind::Define(g) => name_of_global(unit, g).ok_or(Memory),
        FormKind::Lset(g) => name_of_global(unit, g).ok_or(Memory),
        FormKind::Operation(o) => name_of_op(unit, o).ok_or(Memory),
        FormKind::Plain => {
            let var = made.fresh()?;
            Ok(Arg::Var(var))
        }
    }
}

/// The argument that stands for what the forms before a place give: Nil before the first one.
fn before(unit: &UnitCore, made: &mut Conversion, at: usize) -> Result<Arg, Memory>
    ensures { IfOk result (GivesBefore unit.now made.old made.new at) }
{
    if at == 0 {
        return Ok(Arg::Const(Const::Nil));
    }
    match unit.forms.get(at - 1) {
        Some(form) => {
            let arg = given(unit, made, form.kind)?;
            Ok(arg)
        }
        None => Err(Memory),
    }
}

/// Gives a global the value of a form as its first one, in front of the term at a place.
fn init(
    alloc: Global,
    unit: &UnitCore,
    marks: &[bool],
    made: &mut Conversion,
    at: u32,
    form: &Form,
    g: u32,
    rest: u32,
) -> Result<u32, Memory>
    ensures { HasMarks unit.now marks.now → IfOk result (InitConverted unit.now marks.now made.old made.new at form.now g rest) }
{
    if is_proc(unit, g) {
        return Err(Memory);
    }
    let key = form.root;
    let above = unit.shared.size;
    if key >= above {
        return Err(Memory);
    }
    let unused = made.fresh()?;
    let mut jobs = Vec::new(alloc);
    let value = operand(unit, marks, at, made, key, &mut jobs)?;
    let k = Cont::Lam {
        param: unused,
        body: rest,
    };
    let last = made.add(Term::GlobalInit {
        global: g,
        value,
        k,
    })?;
    let place = evaluate(alloc, unit, marks, at, made, above, jobs, last)?;
    Ok(place)
}

/// Whether the root of a form is a LAMBDA.
fn is_lambda(form: &Form) -> bool
    ensures { result ≡ is_lambda_at form.now.nodes.items form.now.root }
{
    match form.nodes.get(form.root as usize) {
        Some(core) => matches!(core, Core::Lambda { .. }),
        None => false,
    }
}

/// The terms of the form at a place, in front of the term at `rest`. A DEFINE of a LAMBDA and a DEFINE-OPERATION make none.
fn form_terms(
    alloc: Global,
    unit: &UnitCore,
    marks: &[bool],
    made: &mut Conversion,
    at: u32,
    form: &Form,
    value: Arg,
    rest: u32,
) -> Result<u32, Memory>
    ensures { HasMarks unit.now marks.now → IfOk result (FormConverted unit.now marks.now made.old made.new at form.now value rest) }
{
    match form.kind {
        FormKind::Define(g) => {
            if is_lambda(form) {
                if is_proc(unit, g) {
                    return Ok(rest);
                }
                return Err(Memory);
            }
            let place = init(alloc, unit, marks, made, at, form, g, rest)?;
            Ok(place)
        }
        FormKind::Lset(g) => {
            let place = init(alloc, unit, marks, made, at, form, g, rest)?;
            Ok(place)
        }
        FormKind::Operation(_) => Ok(rest),
        FormKind::Plain => {
            let Arg::Var(param) = value else {
                return Err(Memory);
            };
            let k = Cont::Lam { param, body: rest };
            let above = unit.shared.size;
            let place = node(alloc, unit, marks, at, made, above, form.root, k)?;
            Ok(place)
        }
    }
}

/// The place of the first term of all forms, which run in order and end the program with what the last one gives. The only error is the
/// want of memory.
pub fn forms(
    alloc: Global,
    unit: &UnitCore,
    marks: &[bool],
    made: &mut Conversion,
) -> Result<u32, Memory>
    ensures { HasMarks unit.now marks.now → IfOk result (FormsConverted unit.now marks.now made.old made.new 0 (Argument.Const Constant.Nil)) }
{
    let mut at = unit.forms.len();
    let mut value = before(unit, made, at)?;
    let mut place = made.add(Term::Halt { value })?;
    'forms: while at > 0 {
        at -= 1;
        let Ok(number) = u32::try_from(at) else {
            return Err(Memory);
        };
        place = form_terms(
            alloc,
            unit,
            marks,
            made,
            number,
            &unit.forms[at],
            value,
            place,
        )?;
        value = before(unit, made, at)?;
    }
    Ok(place)
}
