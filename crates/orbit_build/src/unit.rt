//! Which units are built, and their code.

ghost use Rattle.std.specs.Prelude.{◌≡◌, ◌++◌, List, OnOk, IfOk};
ghost use Rattle.std.specs.List.{list_all};
ghost use Rattle.m68020_code.specs.Table.{spelling};
ghost use Rattle.orbit_build.specs.Code.{terms_code, unit_code};
ghost use Rattle.orbit_build.specs.Sums.{Term, AreTerms, is_fixnum, is_add, is_plain, is_built_node, is_built_form, is_built};

use crate::emit::{push, push_load};
use crate::term::put_term;
use m68020_code::Instr;
use std::alloc::Global;
use t_base::{Const, Memory, Prim};
use t_core::{Core, Form, FormKind, UnitCore};

/// The word of the empty list.
const EMPTY_LIST: u32 = 5;

fn is_built_node(node: &Core) -> bool
    ensures { result ≡ is_built_node node.now }
{
    match node {
        Core::Const(Const::Fix(_))
        | Core::Prim {
            prim: Prim::Add,
            ..
        } => true,
        _ => false,
    }
}

fn is_plain(kind: FormKind) -> bool
    ensures { result ≡ is_plain kind }
{
    match kind {
        FormKind::Plain => true,
        _ => false,
    }
}

fn are_built(nodes: &[Core]) -> bool
    ensures { result ≡ list_all is_built_node nodes.now }
{
    nodes.iter().all(is_built_node)
}

fn is_built_form(form: &Form) -> bool
    ensures { result ≡ is_built_form form.now }
{
    is_plain(form.kind) && are_built(form.nodes.as_slice())
}

/// Whether the unit has no defining form and no nodes other than fixnum constants and sums.
pub fn is_built(unit: &UnitCore) -> bool
    ensures { result ≡ is_built unit.now }
{
    unit.forms.iter().all(is_built_form)
}

/// The forms are put out, one behind the other.
fn put_forms(alloc: Global, forms: &[Form], out: &mut Vec<u8>) -> Result<(), Memory>
    requires { (ts : List Term) × AreTerms forms.now ts }
    ensures { (ts : List Term) → AreTerms forms.now ts → OnOk result (out.new.items ≡ out.old.items ++ terms_code ts) }
{
    for form in forms {
        put_term(alloc, form.nodes.as_slice(), form.root, out)?;
    }
    Ok(())
}

/// The code of a unit.
pub fn code_of(alloc: Global, unit: &UnitCore) -> Result<Vec<u8>, Memory>
    requires { (ts : List Term) × AreTerms unit.now.forms.items ts }
    ensures { (ts : List Term) → AreTerms unit.now.forms.items ts → IfOk result (λ code. code.items ≡ unit_code ts) }
{
    let mut code = Vec::new(alloc);
    push_load(&mut code, EMPTY_LIST)?;
    put_forms(alloc, unit.forms.as_slice(), &mut code)?;
    push(&mut code, Instr::Trap(0))?;
    Ok(code)
}
