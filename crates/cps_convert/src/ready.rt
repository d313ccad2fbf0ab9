// Nodes, and those that are arguments by themselves.
ghost use Rattle.std.specs.Prelude.{◌≡◌, option_map};
ghost use Rattle.t_meaning.specs.Programs.{node_at};
ghost use Rattle.cps_conversion.specs.Conversion.{is_proc, ready_arg};
ghost use Rattle.cps_convert.specs.Claims.{HasMarks};

use cps_ir::Arg;
use cps_walk::is_marked;
use t_base::GlobalKind;
use t_core::{Core, UnitCore};

/// The node at a place of a form, if it is there.
pub(crate) fn node_at(unit: &UnitCore, form: u32, key: u32) -> Option<&Core>
    ensures { option_map (λ node. node.now) result ≡ node_at unit.now form key }
{
    let form = unit.forms.get(form as usize)?;
    form.nodes.get(key as usize)
}

/// Whether a DEFINE of a LAMBDA defines the global.
pub(crate) fn is_proc(unit: &UnitCore, g: u32) -> bool
    ensures { result ≡ is_proc unit.now g }
{
    match unit.shared.globals.get(g as usize) {
        Some(info) => matches!(info.kind, GlobalKind::Proc),
        None => false,
    }
}

/// The argument that a node is by itself, where it is ready.
pub(crate) fn ready(unit: &UnitCore, marks: &[bool], node: &Core) -> Option<Arg>
    ensures { HasMarks unit.now marks.now → result ≡ ready_arg unit.now node.now }
{
    match node {
        Core::Const(c) => Some(Arg::Const(*c)),
        Core::Local(v) => {
            if is_marked(marks, v.0) {
                return None;
            }
            Some(Arg::Var(*v))
        }
        Core::Global(g) => {
            if is_proc(unit, *g) {
                return Some(Arg::Global(*g));
            }
            None
        }
        Core::Builtin(b) => Some(Arg::Builtin(*b)),
        Core::Op(o) => Some(Arg::Op(*o)),
        _ => None,
    }
}
