// A static word for each variable.
ghost use Rattle.std.specs.Prelude.{◌≡◌, ◌≢◌, ◌+◌, ◌++◌, ◌<◌, ◌≤◌, ◌^◌, AllPairs, length, IfOk, OnOk, option_to_list};
ghost use Rattle.word_ir.specs.Lines.{op_binds};
ghost use Rattle.word_ir.specs.Whole.{binders_in, binders, most_statics, IsWhole};
ghost use Rattle.word_ir.specs.WholePlaced.{statics_with_homes};
ghost use Rattle.trace_regs.specs.Homes.{Serves};
ghost use Rattle.trace_regs.specs.Promises.{KeepsRuns, KeepsStampedRuns, KeepsBulk};
ghost use Rattle.trace_regs.specs.Assignment.{with_home, HaveHomes, IsAssigned};

use std::alloc::Global;
use t_base::{Memory, Var};
use word_ir::{Home, Placed, StaticWord, WordBlock, WordOp, Words};

/// The variable that an operation binds.
fn binder_of(op: &WordOp) -> Option<Var>
    ensures { option_to_list result ≡ op_binds op.now }
{
    match op {
        WordOp::Move { to, .. }
        | WordOp::Load { to, .. }
        | WordOp::LoadByte { to, .. }
        | WordOp::Arith { to, .. }
        | WordOp::Take { to, .. } => Some(*to),
        WordOp::Store { .. }
        | WordOp::Push { .. }
        | WordOp::Pop { .. }
        | WordOp::Service { .. }
        | WordOp::Reset { .. } => None,
    }
}

/// Puts the variables that a block binds behind those in a list.
fn add_binders(block: &WordBlock, vars: &mut Vec<Var>) -> Result<(), Memory>
    ensures { OnOk result (vars.new.items ≡ vars.old.items ++ binders_in block.now) }
{
    vars.extend_from_slice(block.params.as_slice())?;
    for op in block.ops.as_slice() {
        if let Some(to) = binder_of(op) {
            vars.push(to)?;
        }
    }
    Ok(())
}

/// The variables that a program binds, in order.
fn binders(alloc: Global, words: &Words) -> Result<Vec<Var>, Memory>
    ensures { IfOk result (λ vars. vars.items ≡ binders words.now) }
{
    let mut vars = Vec::new(alloc);
    for block in words.blocks.as_slice() {
        add_binders(block, &mut vars)?;
    }
    Ok(vars)
}

/// Puts the home of a variable into a list, at its number.
fn put_home(homes: &mut Vec<Home>, v: Var, home: Home) -> Result<(), Memory>
    ensures { OnOk result (homes.new.items ≡ with_home homes.old.items v.0 home) }
{
    let number = v.0 as usize;
    if homes.len() <= number {
        homes.resize(number + 1, Home::D(0))?;
    }
    homes[number] = home;
    Ok(())
}

/// Homes by the numbers of variables: static words from a place on, in the order of the list.
fn homes_from(alloc: Global, low: u32, vars: &[Var]) -> Result<Vec<Home>, Memory>
    requires distinct { AllPairs (λ v w. v ≢ w) vars.now }
    requires room { low + length vars.now < 2 ^ 32 }
    ensures { IfOk result (λ homes. HaveHomes low (length vars.now) vars.now homes.items) }
{
    let mut homes = Vec::new(alloc);
    let mut place = low;
    for v in vars {
        put_home(&mut homes, *v, Home::Static(place))?;
        place += 1;
    }
    Ok(homes)
}

/// The program with more static words, and a static word of its own as the home of each variable that is bound. A number that no
/// variable has may have a home too, which nothing uses.
fn with_static_homes(alloc: Global, words: &Words) -> Result<Placed, Memory>
    requires whole { IsWhole words.now }
    requires few { statics_with_homes words.now ≤ most_statics }
    ensures { IfOk result (λ placed. IsAssigned words.now placed) }
{
    let vars = binders(alloc, words)?;
    let own = words.statics.len();
    let at = homes_from(alloc, own as u32, vars.as_slice())?;
    let mut words = words.copy(alloc)?;
    let count = own + vars.len();
    let even = count + count % 2;
    words.statics.resize(even, StaticWord::Word(0))?;
    Ok(Placed { words, at })
}

/// The program with a home for each of its variables: a whole one, whose runs are those of the words, step for step, where they are
/// safe. Variables that live at once have different homes, and no home is in the stack. Blocks and shared parts stay as they are;
/// the static words are more by the variables that are bound, and one more where their count would be odd. The only error is the
/// want of memory.
pub fn assign(alloc: Global, words: &Words) -> Result<Placed, Memory>
    requires whole { IsWhole words.now }
    requires few { statics_with_homes words.now ≤ most_statics }
    ensures serves { IfOk result (λ placed. Serves words.now placed) }
    ensures keeps { IfOk result (λ placed. KeepsRuns words.now placed) }
    ensures stamped { IfOk result (λ placed. KeepsStampedRuns words.now placed) }
    ensures bulk { IfOk result (λ placed. KeepsBulk words.now placed) }
{
    let placed = with_static_homes(alloc, words)?;
    Ok(placed)
}
