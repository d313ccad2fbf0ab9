//! Operands as those of instructions.

ghost use Rattle.std.specs.Prelude.{◌≡◌, [], ◌∷◌, ◌++◌, OnOk};
ghost use Rattle.m68020_asm.specs.declared.item.Item.TheVariants.{Plain};
ghost use Rattle.lap_items.specs.Operands.{index_d, index_a, slot_items, source_items, source_of, load_items, settled_items, settled};

use crate::homes::{TOP, at_home, home_of, static_address};
use m68020_asm::Item;
use m68020_code::{Ea, Index, Instr};
use t_base::Memory;
use word_ir::{Home, Operand};

/// The address register for the code's own work.
pub const WORK_ADDRESS: u8 = 3;

/// The data registers for the code's own work.
pub const FIRST_WORK: u8 = 6;

pub const SECOND_WORK: u8 = 7;

/// All of a data register as an index.
pub fn index_d(reg: u8) -> Index
    ensures { result ≡ index_d reg }
{
    Index {
        address: false,
        reg,
        long: true,
        scale: 0,
    }
}

fn index_a(reg: u8) -> Index
    ensures { result ≡ index_a reg }
{
    Index {
        address: true,
        reg,
        long: true,
        scale: 0,
    }
}

/// Puts an item behind the others.
pub fn push_item(items: &mut Vec<Item>, item: Item) -> Result<(), Memory>
    ensures { OnOk result (items.new.items ≡ items.old.items ++ item ∷ []) }
{
    items.push(item)?;
    Ok(())
}

/// Puts an instruction behind the items.
pub fn push_plain(items: &mut Vec<Item>, i: Instr) -> Result<(), Memory>
    ensures { OnOk result (items.new.items ≡ items.old.items ++ Plain i ∷ []) }
{
    items.push(Item::Plain(i))?;
    Ok(())
}

fn push_slot(items: &mut Vec<Item>, bytes: u32) -> Result<(), Memory>
    ensures { OnOk result (items.new.items ≡ items.old.items ++ slot_items bytes) }
{
    if bytes < 32768 {
        push_plain(
            items,
            Instr::Lea {
                from: Ea::Disp(TOP, bytes as i16),
                to: WORK_ADDRESS,
            },
        )
    } else {
        push_plain(
            items,
            Instr::MoveaL {
                from: Ea::Imm(bytes),
                to: WORK_ADDRESS,
            },
        )?;
        push_plain(
            items,
            Instr::Lea {
                from: Ea::Index {
                    base: TOP,
                    x: index_a(WORK_ADDRESS),
                    disp: 0,
                },
                to: WORK_ADDRESS,
            },
        )
    }
}

/// The items that have to run before an operand is used.
pub fn push_source(items: &mut Vec<Item>, x: Operand) -> Result<(), Memory>
    ensures { OnOk result (items.new.items ≡ items.old.items ++ source_items x) }
{
    match x {
        Operand::Code(label) => {
            items.push(Item::CodeAddr {
                reg: WORK_ADDRESS,
                label,
            })?;
            Ok(())
        }
        Operand::Slot(bytes) => push_slot(items, bytes),
        Operand::Var(_) => Ok(()),
        Operand::Word(_) => Ok(()),
        Operand::Static(_) => Ok(()),
    }
}

/// Where the operand's word is then.
pub fn source_of(homes: &[Home], x: Operand) -> Ea
    ensures { result ≡ source_of homes.now x }
{
    match x {
        Operand::Var(v) => at_home(home_of(homes, v)),
        Operand::Word(n) => Ea::Imm(n),
        Operand::Static(place) => Ea::Imm(static_address(place)),
        Operand::Code(_) => Ea::A(WORK_ADDRESS),
        Operand::Slot(_) => Ea::A(WORK_ADDRESS),
    }
}

/// The operand's word goes into a data register.
pub fn push_load(items: &mut Vec<Item>, homes: &[Home], x: Operand, to: u8) -> Result<(), Memory>
    ensures { OnOk result (items.new.items ≡ items.old.items ++ load_items homes.now x to) }
{
    push_source(items, x)?;
    push_plain(
        items,
        Instr::MoveL {
            from: source_of(homes, x),
            to: Ea::D(to),
        },
    )
}

/// The operand without an address register.
pub fn settled(from: Ea) -> Ea
    ensures { result ≡ settled from }
{
    match from {
        Ea::A(_) => Ea::D(FIRST_WORK),
        other => other,
    }
}

/// The items that have to run before an operand is used that may not be in an address register.
pub fn push_settled(items: &mut Vec<Item>, homes: &[Home], x: Operand) -> Result<(), Memory>
    ensures { OnOk result (items.new.items ≡ items.old.items ++ settled_items homes.now x) }
{
    push_source(items, x)?;
    match source_of(homes, x) {
        Ea::A(i) => push_plain(
            items,
            Instr::MoveL {
                from: Ea::A(i),
                to: Ea::D(FIRST_WORK),
            },
        ),
        _ => Ok(()),
    }
}
