// What a program names, with all that this needs.
ghost use Rattle.std.specs.Prelude.{IfOk, OnOk, length};
ghost use Rattle.frame_ir.specs.Whole.{IsWhole};
ghost use Rattle.static_names.specs.Named.{fixed_of};
ghost use Rattle.static_tables.specs.Tables.{AreStatics};
ghost use Rattle.static_tables.specs.Gathered.{AddsParts, IsClosing};

use crate::Statics;
use crate::parts::parts_of;
use frame_ir::Frames;
use static_names::{Thing, named};
use std::alloc::Global;
use t_base::Memory;

/// Adds the parts of a thing, where it stands there.
fn add_parts(
    alloc: Global,
    frames: &Frames,
    thing: Thing,
    statics: &mut Statics,
) -> Result<(), Memory>
    requires { AreStatics frames.now statics.old }
    ensures { OnOk result (AddsParts frames.now (fixed_of thing) statics.old statics.new) }
{
    if statics.word(thing) == 0 {
        return Ok(());
    }
    let parts = parts_of(alloc, frames, thing)?;
    statics.add_all(frames, parts.as_slice())?;
    Ok(())
}

/// Adds the operations of the templates that stand there.
fn add_operations(alloc: Global, frames: &Frames, statics: &mut Statics) -> Result<(), Memory>
    requires whole { IsWhole frames.now }
    requires before { IsClosing frames.now 0 (length frames.now.shared.pairs.items) 0 statics.old }
    ensures { OnOk result (IsClosing frames.now (length frames.now.templates.items) (length frames.now.shared.pairs.items) 0 statics.new) }
{
    let Ok(count) = u32::try_from(frames.templates.len()) else {
        return Err(Memory);
    };
    for t in 0..count {
        add_parts(alloc, frames, Thing::Template(t), statics)?;
    }
    Ok(())
}

/// Adds the parts of the quoted pairs that stand there, from the last one on.
fn add_pairs(alloc: Global, frames: &Frames, statics: &mut Statics) -> Result<(), Memory>
    requires whole { IsWhole frames.now }
    requires before { IsClosing frames.now (length frames.now.templates.items) (length frames.now.shared.pairs.items) 0 statics.old }
    ensures { OnOk result (IsClosing frames.now (length frames.now.templates.items) 0 0 statics.new) }
{
    let Ok(mut k) = u32::try_from(frames.shared.pairs.len()) else {
        return Err(Memory);
    };
    while k > 0 {
        k -= 1;
        add_parts(alloc, frames, Thing::Pair(k), statics)?;
    }
    Ok(())
}

/// Adds the print names of the symbols that stand there.
fn add_print_names(alloc: Global, frames: &Frames, statics: &mut Statics) -> Result<(), Memory>
    requires whole { IsWhole frames.now }
    requires before { IsClosing frames.now (length frames.now.templates.items) 0 0 statics.old }
    ensures { OnOk result (IsClosing frames.now (length frames.now.templates.items) 0 (length frames.now.shared.names) statics.new) }
{
    let count = frames.shared.names.count();
    for n in 0..count {
        add_parts(alloc, frames, Thing::Symbol(n), statics)?;
    }
    Ok(())
}

/// What a program names in static words, with the operations of its templates, the parts of its quoted pairs and the print names of its symbols. It is linear in
/// operations, arguments and shared parts. The only error is the want of memory, which stands also for more than 2^25 words.
pub fn gather(alloc: Global, frames: &Frames) -> Result<Statics, Memory>
    requires { IsWhole frames.now }
    ensures { IfOk result (IsClosing frames.now (length frames.now.templates.items) 0 (length frames.now.shared.names)) }
{
    let things = named(alloc, frames)?;
    let mut statics = Statics::new(alloc, frames)?;
    statics.add_all(frames, things.as_slice())?;
    add_operations(alloc, frames, &mut statics)?;
    add_pairs(alloc, frames, &mut statics)?;
    add_print_names(alloc, frames, &mut statics)?;
    Ok(statics)
}
