//! Services of the monitor.

ghost use Rattle.std.specs.Prelude.{◌≡◌, ◌∷◌, [], ◌++◌, OnOk, true, false};
ghost use Rattle.m68020_code.specs.declared.instr.Ea.TheVariants.{D, A};
ghost use Rattle.m68020_code.specs.declared.instr.Instr.TheVariants.{MoveL};
ghost use Rattle.m68020_asm.specs.declared.item.Item.TheVariants.{Plain};
ghost use Rattle.lap_items.specs.Operands.{source_items, source_of};
ghost use Rattle.lap_items.specs.Services.{no_service, with_one_items, fault_items, is_one, left_items, full_items, service_items};

use crate::operands::{FIRST_WORK, SECOND_WORK, push_load, push_plain, push_source, source_of};
use m68020_asm::Item;
use m68020_code::{Ea, Instr};
use t_base::Memory;
use word_ir::{Home, Operand};

fn push_no_service(items: &mut Vec<Item>) -> Result<(), Memory>
    ensures { OnOk result (items.new.items ≡ items.old.items ++ no_service) }
{
    push_plain(items, Instr::Illegal)
}

fn push_copy(items: &mut Vec<Item>, from: Ea, to: u8) -> Result<(), Memory>
    ensures { OnOk result (items.new.items ≡ items.old.items ++ Plain (MoveL from (D to)) ∷ []) }
{
    push_plain(
        items,
        Instr::MoveL {
            from,
            to: Ea::D(to),
        },
    )
}

#[tactic(auto, unfolding(lap_items::specs::Services::with_one_items))]
fn push_with_one(
    items: &mut Vec<Item>,
    homes: &[Home],
    number: u8,
    args: &[Operand],
) -> Result<(), Memory>
    ensures { OnOk result (items.new.items ≡ items.old.items ++ with_one_items homes.now number args.now) }
{
    match args {
        [a] => {
            push_copy(items, Ea::D(0), SECOND_WORK)?;
            push_source(items, *a)?;
            push_copy(items, source_of(homes, *a), 0)?;
            push_plain(items, Instr::Trap(number))?;
            push_copy(items, Ea::D(SECOND_WORK), 0)
        }
        _ => push_no_service(items),
    }
}

#[tactic(auto, unfolding(lap_items::specs::Services::fault_items))]
fn push_fault_of_program(
    items: &mut Vec<Item>,
    homes: &[Home],
    a: Operand,
    b: Operand,
) -> Result<(), Memory>
    ensures { OnOk result (items.new.items ≡ items.old.items ++ fault_items homes.now (a ∷ b ∷ [])) }
{
    push_load(items, homes, b, FIRST_WORK)?;
    push_load(items, homes, a, SECOND_WORK)?;
    push_copy(items, Ea::D(FIRST_WORK), 1)?;
    push_copy(items, Ea::D(SECOND_WORK), 0)?;
    push_plain(items, Instr::Trap(3))
}

#[tactic(auto, unfolding(lap_items::specs::Services::fault_items))]
fn push_fault(items: &mut Vec<Item>, homes: &[Home], args: &[Operand]) -> Result<(), Memory>
    ensures { OnOk result (items.new.items ≡ items.old.items ++ fault_items homes.now args.now) }
{
    match args {
        [a] => {
            push_load(items, homes, *a, 0)?;
            push_plain(items, Instr::Trap(3))
        }
        [a, b] => push_fault_of_program(items, homes, *a, *b),
        _ => push_no_service(items),
    }
}

fn is_one(x: Operand) -> bool
    ensures { result ≡ is_one x }
{
    match x {
        Operand::Word(n) => n == 1,
        Operand::Var(_) => false,
        Operand::Static(_) => false,
        Operand::Code(_) => false,
        Operand::Slot(_) => false,
    }
}

fn push_heap_left(items: &mut Vec<Item>) -> Result<(), Memory>
    ensures { OnOk result (items.new.items ≡ items.old.items ++ left_items false) }
{
    push_copy(items, Ea::A(6), 1)?;
    push_plain(
        items,
        Instr::SubL {
            from: Ea::A(4),
            to: 1,
        },
    )?;
    push_plain(items, Instr::Moveq { value: 0, to: 2 })
}

fn push_stack_left(items: &mut Vec<Item>) -> Result<(), Memory>
    ensures { OnOk result (items.new.items ≡ items.old.items ++ left_items true) }
{
    push_copy(items, Ea::A(7), 1)?;
    push_plain(
        items,
        Instr::SubL {
            from: Ea::A(5),
            to: 1,
        },
    )?;
    push_plain(items, Instr::Moveq { value: 1, to: 2 })
}

fn push_left(items: &mut Vec<Item>, stack: bool) -> Result<(), Memory>
    ensures { OnOk result (items.new.items ≡ items.old.items ++ left_items stack) }
{
    if stack {
        push_stack_left(items)
    } else {
        push_heap_left(items)
    }
}

#[tactic(auto, unfolding(lap_items::specs::Services::full_items))]
fn push_full(items: &mut Vec<Item>, homes: &[Home], args: &[Operand]) -> Result<(), Memory>
    ensures { OnOk result (items.new.items ≡ items.old.items ++ full_items homes.now args.now) }
{
    match args {
        [a, kind] => {
            push_load(items, homes, *a, 0)?;
            push_left(items, is_one(*kind))?;
            push_plain(items, Instr::Trap(4))
        }
        _ => push_no_service(items),
    }
}

/// A service with its operands.
#[tactic(auto, unfolding(lap_items::specs::Services::service_items))]
pub fn push_service(
    items: &mut Vec<Item>,
    homes: &[Home],
    number: u8,
    args: &[Operand],
) -> Result<(), Memory>
    ensures { OnOk result (items.new.items ≡ items.old.items ++ service_items homes.now number args.now) }
{
    if number == 3 {
        push_fault(items, homes, args)
    } else if number == 4 {
        push_full(items, homes, args)
    } else {
        push_with_one(items, homes, number, args)
    }
}
