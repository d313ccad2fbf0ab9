// What stands in static words because something else does.
ghost use Rattle.std.specs.Prelude.{◌≡◌, ◌++◌, [], ◌∷◌, map, IfOk, OnOk};
ghost use Rattle.static_names.specs.declared.things.Thing.TheVariants as thing;
ghost use Rattle.static_names.specs.Named.{fixed_of, of_const};
ghost use Rattle.static_tables.specs.Gathered.{parts_of};

use frame_ir::Frames;
use static_names::{Thing, push_const};
use std::alloc::Global;
use t_base::{Const, Memory};

fn push_operations(ops: &[u32], things: &mut Vec<Thing>) -> Result<(), Memory>
    ensures { OnOk result (things.new.items ≡ things.old.items ++ map thing.Operation ops.now) }
{
    for o in ops {
        things.push(Thing::Operation(*o))?;
    }
    Ok(())
}

fn push_both(pair: (Const, Const), things: &mut Vec<Thing>) -> Result<(), Memory>
    ensures { OnOk result (things.new.items ≡ things.old.items ++ (of_const pair.0 ++ of_const pair.1)) }
{
    push_const(pair.0, things)?;
    push_const(pair.1, things)?;
    Ok(())
}

fn pair_parts(alloc: Global, frames: &Frames, k: u32) -> Result<Vec<Thing>, Memory>
    ensures { IfOk result (λ parts. parts.items ≡ parts_of frames.now (fixed_of (thing.Pair k))) }
{
    let mut parts = Vec::new(alloc);
    match frames.shared.pairs.get(k as usize) {
        None => Ok(parts),
        Some(pair) => {
            push_both(*pair, &mut parts)?;
            Ok(parts)
        }
    }
}

fn template_parts(alloc: Global, frames: &Frames, t: u32) -> Result<Vec<Thing>, Memory>
    ensures { IfOk result (λ parts. parts.items ≡ parts_of frames.now (fixed_of (thing.Template t))) }
{
    let mut parts = Vec::new(alloc);
    match frames.templates.get(t as usize) {
        None => Ok(parts),
        Some(template) => {
            push_operations(template.ops.as_slice(), &mut parts)?;
            Ok(parts)
        }
    }
}

fn symbol_parts(alloc: Global, n: u32) -> Result<Vec<Thing>, Memory>
    ensures { IfOk result (λ parts. parts.items ≡ thing.PrintName n ∷ []) }
{
    let mut parts = Vec::new(alloc);
    parts.push(Thing::PrintName(n))?;
    Ok(parts)
}

/// The parts of a pair, the print name of a symbol, the operations of a template. The only error is the want of memory.
pub(crate) fn parts_of(alloc: Global, frames: &Frames, thing: Thing) -> Result<Vec<Thing>, Memory>
    ensures { IfOk result (λ parts. parts.items ≡ parts_of frames.now (fixed_of thing)) }
{
    match thing {
        Thing::Pair(k) => pair_parts(alloc, frames, k),
        Thing::Symbol(n) => symbol_parts(alloc, n),
        Thing::Template(t) => template_parts(alloc, frames, t),
        Thing::Closure(_)
        | Thing::Builtin(_)
        | Thing::Operation(_)
        | Thing::Literal(_)
        | Thing::PrintName(_) => Ok(Vec::new(alloc)),
    }
}
