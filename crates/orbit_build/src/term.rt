//! Terms, put out as code.

ghost use Rattle.std.specs.Prelude.{◌≡◌, ◌<◌, ◌+◌, ◌++◌, ◌∷◌, [], List, ℕ, OnOk, sum_by, slice_get};
ghost use Rattle.std.specs.Option.{option_map};
ghost use Rattle.orbit_build.specs.declared.term.Task.TheVariants as tasks;
ghost use Rattle.orbit_build.specs.Code.{term_code};
ghost use Rattle.orbit_build.specs.Sums.{Term, IsTermAt, as_fixnum, as_sum, places, two_of};
ghost use Rattle.orbit_build.specs.Tasks.{IsCodeOf, Leads, steps};

use crate::emit::{push_add, push_load, push_save, word_of};
use std::alloc::Global;
use t_base::{Const, Memory, Prim};
use t_core::Core;

/// What is to be put out: the code of a node under so many sums whose second operand it is part of, or what stands behind the
/// first or the second operand of a sum under so many others.
#[derive(Clone, Copy)]
pub enum Task {
    Node { key: u32, depth: u32 },
    Save { depth: u32 },
    Add { depth: u32 },
}

/// The fixnum at a place.
fn fixnum_at(nodes: &[Core], key: u32) -> Option<i32>
    ensures { result ≡ as_fixnum (slice_get nodes.now key) }
{
    let node = nodes.get(key as usize)?;
    match node {
        Core::Const(Const::Fix(value)) => Some(*value),
        _ => None,
    }
}

/// The two places.
fn two_of(operands: &[u32]) -> Option<(u32, u32)>
    ensures { option_map (λ p. places p.0 p.1) result ≡ two_of operands.now }
{
    match operands {
        [first, second] => Some((*first, *second)),
        _ => None,
    }
}

/// The operands of the sum at a place.
fn operands_at(nodes: &[Core], key: u32) -> Option<(u32, u32)>
    ensures { option_map (λ p. places p.0 p.1) result ≡ as_sum (slice_get nodes.now key) }
{
    let node = nodes.get(key as usize)?;
    match node {
        Core::Prim {
            prim: Prim::Add,
            operands,
        } => two_of(operands.as_slice()),
        _ => None,
    }
}

/// The tasks of a sum.
fn put_off(waiting: &mut Vec<Task>, first: u32, second: u32, depth: u32) -> Result<(), Memory>
    requires { depth < 2000 }
    ensures { OnOk result (waiting.new.items ≡ waiting.old.items ++ tasks.Add depth ∷ tasks.Node second (depth + 1) ∷ tasks.Save depth ∷ tasks.Node first depth ∷ []) }
{
    waiting.push(Task::Add { depth })?;
    waiting.push(Task::Node {
        key: second,
        depth: depth + 1,
    })?;
    waiting.push(Task::Save { depth })?;
    waiting.push(Task::Node { key: first, depth })?;
    Ok(())
}

/// A node is put out, or its parts are put off.
fn put_node(
    nodes: &[Core],
    key: u32,
    depth: u32,
    waiting: &mut Vec<Task>,
    out: &mut Vec<u8>,
) -> Result<(), Memory>
    requires { (code : List ℕ) × IsCodeOf nodes.now (tasks.Node key depth) code }
    ensures leads { OnOk result ((total : List ℕ) → Leads nodes.now (waiting.old.items ++ tasks.Node key depth ∷ []) out.old.items total → Leads nodes.now waiting.new.items out.new.items total) }
    ensures fewer { OnOk result (sum_by steps waiting.new.items < sum_by steps waiting.old.items + steps (tasks.Node key depth)) }
{
    match fixnum_at(nodes, key) {
        Some(value) => push_load(out, word_of(value)),
        None => {
            let (first, second) = operands_at(nodes, key).unwrap();
            put_off(waiting, first, second, depth)
        }
    }
}

/// A task is done.
fn put_task(
    nodes: &[Core],
    task: Task,
    waiting: &mut Vec<Task>,
    out: &mut Vec<u8>,
) -> Result<(), Memory>
    requires { (code : List ℕ) × IsCodeOf nodes.now task code }
    ensures leads { OnOk result ((total : List ℕ) → Leads nodes.now (waiting.old.items ++ task ∷ []) out.old.items total → Leads nodes.now waiting.new.items out.new.items total) }
    ensures fewer { OnOk result (sum_by steps waiting.new.items < sum_by steps waiting.old.items + steps task) }
{
    match task {
        Task::Node { key, depth } => put_node(nodes, key, depth, waiting, out),
        Task::Save { depth } => push_save(out, depth),
        Task::Add { depth } => push_add(out, depth),
    }
}

/// The term at a place is put out. The nodes wait on a list, so that a long chain of sums needs no deep recursion.
pub fn put_term(alloc: Global, nodes: &[Core], root: u32, out: &mut Vec<u8>) -> Result<(), Memory>
    requires { (t : Term) × IsTermAt nodes.now root t }
    ensures { (t : Term) → IsTermAt nodes.now root t → OnOk result (out.new.items ≡ out.old.items ++ term_code 0 t) }
{
    let mut waiting = Vec::new(alloc);
    waiting.push(Task::Node {
        key: root,
        depth: 0,
    })?;
    'tasks: while let Some(task) = waiting.pop() {
        put_task(nodes, task, &mut waiting, out)?;
    }
    Ok(())
}
