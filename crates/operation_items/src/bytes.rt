//! Bytes of storage, with the index in D7.

ghost use Rattle.std.specs.Prelude.{◌≡◌, ◌∷◌, [], ◌++◌, ℤ, pos, ◌+ℤ◌, OnOk, Some, None, if◌then◌else◌};
ghost use Rattle.m68020_step.specs.Word.{sum_of, unsigned};
ghost use Rattle.m68020_code.specs.Table.{fits};
ghost use Rattle.m68020_code.specs.declared.instr.Ea.TheVariants as ea;
ghost use Rattle.m68020_code.specs.declared.instr.Instr.TheVariants.{MoveaL};
ghost use Rattle.m68020_asm.specs.declared.item.Item.TheVariants.{Plain};
ghost use Rattle.lap_items.specs.Operands.{index_d};
ghost use Rattle.lap_items.specs.Storage.{index_items, short_of, byte_base_items, byte_of, read_byte_items};

use crate::homes::{TOP, put_into};
use crate::operands::{
    FIRST_WORK, SECOND_WORK, WORK_ADDRESS, index_d, push_item, push_load, push_plain, push_source,
    source_of,
};
use crate::storage::moved;
use m68020_asm::Item;
use m68020_code::{Ea, Instr};
use t_base::Memory;
use word_ir::{Home, Operand};

/// A displacement where 8 bits with a sign hold it, else 0.
fn short_of(offset: i64) -> i8
    ensures { result ≡ short_of offset }
{
    if -128 <= offset && offset <= 127 {
        offset as i8
    } else {
        0
    }
}

fn push_index(items: &mut Vec<Item>, offset: i64, long: u32) -> Result<(), Memory>
    ensures { OnOk result (items.new.items ≡ items.old.items ++ index_items offset long) }
{
    if -128 <= offset && offset <= 127 {
        Ok(())
    } else {
        push_plain(
            items,
            Instr::AddiL {
                value: long,
                to: Ea::D(SECOND_WORK),
            },
        )
    }
}

fn push_address(items: &mut Vec<Item>, from: Ea) -> Result<(), Memory>
    ensures { OnOk result (items.new.items ≡ items.old.items ++ Plain (MoveaL from 3) ∷ []) }
{
    push_plain(
        items,
        Instr::MoveaL {
            from,
            to: WORK_ADDRESS,
        },
    )
}

#[tactic(auto, unfolding(lap_items::specs::Storage::byte_base_items))]
fn push_byte_base(
    items: &mut Vec<Item>,
    homes: &[Home],
    x: Operand,
    offset: i32,
) -> Result<(), Memory>
    ensures { OnOk result (items.new.items ≡ items.old.items ++ byte_base_items homes.now x offset) }
{
    match x {
        Operand::Slot(bytes) => push_index(
            items,
            i64::from(bytes) + i64::from(offset),
            moved(bytes, offset),
        ),
        Operand::Code(block) => {
            push_source(items, Operand::Code(block))?;
            push_index(items, i64::from(offset), offset.cast_unsigned())
        }
        Operand::Var(v) => {
            push_address(items, source_of(homes, Operand::Var(v)))?;
            push_index(items, i64::from(offset), offset.cast_unsigned())
        }
        Operand::Word(n) => {
            push_address(items, source_of(homes, Operand::Word(n)))?;
            push_index(items, i64::from(offset), offset.cast_unsigned())
        }
        Operand::Static(place) => {
            push_address(items, source_of(homes, Operand::Static(place)))?;
            push_index(items, i64::from(offset), offset.cast_unsigned())
        }
    }
}

fn indexed(base: u8, offset: i64) -> Ea
    ensures { result ≡ ea.Index base (index_d 7) (short_of offset) }
{
    Ea::Index {
        base,
        x: index_d(SECOND_WORK),
        disp: short_of(offset),
    }
}

#[tactic(auto, unfolding(lap_items::specs::Storage::byte_of))]
fn byte_of(x: Operand, offset: i32) -> Ea
    ensures { result ≡ byte_of x offset }
{
    match x {
        Operand::Slot(bytes) => indexed(TOP, i64::from(bytes) + i64::from(offset)),
        Operand::Var(_) => indexed(WORK_ADDRESS, i64::from(offset)),
        Operand::Word(_) => indexed(WORK_ADDRESS, i64::from(offset)),
        Operand::Static(_) => indexed(WORK_ADDRESS, i64::from(offset)),
        Operand::Code(_) => indexed(WORK_ADDRESS, i64::from(offset)),
    }
}

/// The byte at an address goes into a home.
#[tactic(auto, unfolding(lap_items::specs::Storage::read_byte_items))]
pub fn push_read_byte(
    items: &mut Vec<Item>,
    homes: &[Home],
    base: Operand,
    index: Operand,
    offset: i32,
    to: Home,
) -> Result<(), Memory>
    ensures { OnOk result (items.new.items ≡ items.old.items ++ read_byte_items homes.now base index offset to) }
{
    push_load(items, homes, index, SECOND_WORK)?;
    push_byte_base(items, homes, base, offset)?;
    push_plain(
        items,
        Instr::Moveq {
            value: 0,
            to: FIRST_WORK,
        },
    )?;
    push_plain(
        items,
        Instr::MoveB {
            from: byte_of(base, offset),
            to: Ea::D(FIRST_WORK),
        },
    )?;
    push_item(items, put_into(Ea::D(FIRST_WORK), to))
}
