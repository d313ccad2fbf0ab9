// Which variables of a unit are assigned.
ghost use Rattle.std.specs.Prelude.{◌≡◌, ◌||◌, IfOk, OnOk};
ghost use Rattle.std.specs.List.{list_any};
ghost use Rattle.t_base.specs.declared.basics.Var.{Var};
ghost use Rattle.t_meaning.specs.Costs.{assigns};
ghost use Rattle.cps_walk.specs.Marked.{is_marked};
ghost use Rattle.cps_convert.specs.Claims.{HasMarks};

use cps_walk::mark;
use std::alloc::Global;
use t_base::Memory;
use t_core::{Core, UnitCore};

/// Marks the variable that a node assigns, if it assigns one.
fn mark_node(marks: &mut Vec<bool>, node: &Core) -> Result<(), Memory>
    ensures { OnOk result ((v : Var) → is_marked marks.new.items v.0 ≡ (is_marked marks.old.items v.0 || assigns v node.now)) }
{
    if let Core::SetLocal { var, .. } = node {
        mark(marks, var.0)?;
    }
    Ok(())
}

/// Marks the variables that nodes assign.
fn mark_nodes(marks: &mut Vec<bool>, nodes: &[Core]) -> Result<(), Memory>
    ensures { OnOk result ((v : Var) → is_marked marks.new.items v.0 ≡ (is_marked marks.old.items v.0 || list_any (assigns v) nodes.now)) }
{
    'nodes: for node in nodes {
        mark_node(marks, node)?;
    }
    Ok(())
}

/// A mark for each variable of a unit, up to the last one that is assigned: whether it is assigned. It is linear in the nodes. The only
/// error is the want of memory.
pub fn marks_of(alloc: Global, unit: &UnitCore) -> Result<Vec<bool>, Memory>
    ensures { IfOk result (λ marks. HasMarks unit.now marks.items) }
{
    let mut marks = Vec::new(alloc);
    'forms: for form in &unit.forms {
        mark_nodes(&mut marks, form.nodes.as_slice())?;
    }
    Ok(marks)
}
