//! Arguments go to their homes at once.

ghost use Rattle.std.specs.Prelude.{◌≡◌, ◌≢◌, ◌≤◌, ◌*◌, ℕ, Bool, IsTrue, ◌∷◌, [], ◌++◌, length, IfOk, OnOk};
ghost use Rattle.parallel_moves.specs.Moves.{scratch, after, at_once, AreParallel, MovesPass, StepsPass};
ghost use Rattle.lap_items.specs.Moves.{move_between, moving, moves_to, filling, fill_items, one_item, moved_items};
ghost use Rattle.lap_items.specs.Program.{single_move, moves_between};
ghost use Rattle.lap_emit.specs.Written.{AddsMoves, AddsArguments};

use m68020_asm::Item;
use operation_items::homes::{at_home, home_at, home_of, number_of_home, put_into};
use operation_items::operands::{push_item, push_source, source_of};
use parallel_moves::{Move, OneMove, sequence};
use std::alloc::Global;
use t_base::Memory;
use word_ir::{Home, Operand};

fn move_between(from: Home, to: Home) -> Move
    ensures { result ≡ move_between from to }
{
    Move {
        from: number_of_home(from),
        to: number_of_home(to),
    }
}

#[tactic(auto, unfolding(lap_items::specs::Moves::moving))]
fn push_moving(moves: &mut Vec<Move>, homes: &[Home], x: Operand, to: Home) -> Result<(), Memory>
    ensures { OnOk result (moves.new.items ≡ moves.old.items ++ moving homes.now x to) }
{
    match x {
        Operand::Var(v) => {
            moves.push(move_between(home_of(homes, v), to))?;
            Ok(())
        }
        Operand::Word(_) => Ok(()),
        Operand::Static(_) => Ok(()),
        Operand::Code(_) => Ok(()),
        Operand::Slot(_) => Ok(()),
    }
}

fn moves_to(
    alloc: Global,
    homes: &[Home],
    args: &[Operand],
    places: &[Home],
) -> Result<Vec<Move>, Memory>
    ensures { IfOk result (λ moves. moves.items ≡ moves_to homes.now args.now places.now) }
{
    let mut moves = Vec::new(alloc);
    'pairs: for n in 0..args.len().min(places.len()) {
        push_moving(&mut moves, homes, args[n], places[n])?;
    }
    Ok(moves)
}

fn push_between(moves: &mut Vec<Move>, from: Home, to: Home) -> Result<(), Memory>
    ensures { OnOk result (moves.new.items ≡ moves.old.items ++ single_move from to) }
{
    moves.push(move_between(from, to))?;
    Ok(())
}

/// The moves from homes to homes.
pub fn moves_between(alloc: Global, sources: &[Home], places: &[Home]) -> Result<Vec<Move>, Memory>
    ensures { IfOk result (λ moves. moves.items ≡ moves_between sources.now places.now) }
{
    let mut moves = Vec::new(alloc);
    'pairs: for n in 0..sources.len().min(places.len()) {
        push_between(&mut moves, sources[n], places[n])?;
    }
    Ok(moves)
}

fn push_one(items: &mut Vec<Item>, from: u32, to: u32) -> Result<(), Memory>
    ensures { OnOk result (items.new.items ≡ items.old.items ++ one_item (record { from = from; to = to }) ∷ []) }
{
    push_item(items, put_into(at_home(home_at(from)), home_at(to)))
}

fn push_moved(items: &mut Vec<Item>, done: &[OneMove]) -> Result<(), Memory>
    ensures { OnOk result (items.new.items ≡ items.old.items ++ moved_items done.now) }
{
    'moves: for at in 0..done.len() {
        let OneMove { from, to } = done[at];
        push_one(items, from, to)?;
    }
    Ok(())
}

/// Moves that, one after another, have the effect of all at once.
fn one_by_one(alloc: Global, moves: &[Move]) -> Result<Vec<OneMove>, Memory>
    requires { AreParallel moves.now }
    ensures effect { IfOk result (λ done. (holds : ℕ → ℕ) (p : ℕ) → p ≢ scratch → after done.items holds p ≡ at_once moves.now holds p) }
    ensures places { IfOk result (λ done. (test : ℕ → Bool) → IsTrue (test scratch) → MovesPass test moves.now → StepsPass test done.items) }
    ensures few { IfOk result (λ done. length done.items ≤ 3 * length moves.now) }
{
    sequence(alloc, moves)
}

/// Does moves at once.
pub fn push_at_once(alloc: Global, items: &mut Vec<Item>, moves: &[Move]) -> Result<(), Memory>
    requires { AreParallel moves.now }
    ensures { OnOk result (AddsMoves moves.now items.old.items items.new.items) }
{
    let done = one_by_one(alloc, moves)?;
    push_moved(items, done.as_slice())
}

#[tactic(auto, unfolding(lap_items::specs::Moves::filling))]
fn push_filling(items: &mut Vec<Item>, homes: &[Home], x: Operand, to: Home) -> Result<(), Memory>
    ensures { OnOk result (items.new.items ≡ items.old.items ++ filling homes.now x to) }
{
    match x {
        Operand::Var(_) => Ok(()),
        Operand::Word(n) => push_item(items, put_into(source_of(homes, Operand::Word(n)), to)),
        Operand::Static(place) => {
            push_item(
                items,
                put_into(source_of(homes, Operand::Static(place)), to),
            )
        }
        Operand::Code(block) => {
            push_source(items, Operand::Code(block))?;
            push_item(items, put_into(source_of(homes, Operand::Code(block)), to))
        }
        Operand::Slot(bytes) => {
            push_source(items, Operand::Slot(bytes))?;
            push_item(items, put_into(source_of(homes, Operand::Slot(bytes)), to))
        }
    }
}

fn push_fills(
    items: &mut Vec<Item>,
    homes: &[Home],
    args: &[Operand],
    places: &[Home],
) -> Result<(), Memory>
    ensures { OnOk result (items.new.items ≡ items.old.items ++ fill_items homes.now args.now places.now) }
{
    'pairs: for n in 0..args.len().min(places.len()) {
        push_filling(items, homes, args[n], places[n])?;
    }
    Ok(())
}

/// Puts arguments into their places.
pub fn push_arguments(
    alloc: Global,
    items: &mut Vec<Item>,
    homes: &[Home],
    args: &[Operand],
    places: &[Home],
) -> Result<(), Memory>
    requires { AreParallel (moves_to homes.now args.now places.now) }
    ensures { OnOk result (AddsArguments homes.now args.now places.now items.old.items items.new.items) }
{
    let moves = moves_to(alloc, homes, args, places)?;
    push_at_once(alloc, items, moves.as_slice())?;
    push_fills(items, homes, args, places)
}
