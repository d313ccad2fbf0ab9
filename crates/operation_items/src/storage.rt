//! Words and bytes of storage as operands.

ghost use Rattle.std.specs.Prelude.{◌≡◌, ◌∷◌, [], ◌++◌, ℤ, pos, ◌+ℤ◌, OnOk, Some, None, if◌then◌else◌};
ghost use Rattle.m68020_step.specs.Word.{sum_of, unsigned};
ghost use Rattle.m68020_code.specs.Table.{fits};
ghost use Rattle.m68020_asm.specs.declared.item.Item.TheVariants.{Plain};
ghost use Rattle.lap_items.specs.Storage.{is_near, far_items, from_register, base_items, base_of, access_items, access_of, read_items, kept_items, kept_of, write_items};

use crate::homes::{TOP, at_home, home_of, put_into, static_address};
use crate::operands::{
    FIRST_WORK, SECOND_WORK, WORK_ADDRESS, index_d, push_item, push_load, push_plain, push_source,
    source_of,
};
use m68020_asm::Item;
use m68020_code::{Ea, Instr};
use t_base::Memory;
use word_ir::{Home, Operand};

/// A displacement where 16 bits with a sign hold it.
fn near(offset: i64) -> Option<i16>
    ensures { result ≡ (if is_near offset then Some offset else None) }
{
    if -32768 <= offset && offset <= 32767 {
        Some(offset as i16)
    } else {
        None
    }
}

/// A number as far from another one as an offset says, of 32 bits.
pub fn moved(from: u32, offset: i32) -> u32
    ensures { result ≡ sum_of from (unsigned offset) }
{
    from.wrapping_add(offset.cast_unsigned())
}

fn push_far(items: &mut Vec<Item>, offset: i64, long: u32) -> Result<(), Memory>
    ensures { OnOk result (items.new.items ≡ items.old.items ++ far_items offset long) }
{
    match near(offset) {
        Some(_) => Ok(()),
        None => push_plain(
            items,
            Instr::MoveL {
                from: Ea::Imm(long),
                to: Ea::D(FIRST_WORK),
            },
        ),
    }
}

/// So far from the address in a register.
fn from_register(base: u8, offset: i64) -> Ea
    ensures { result ≡ from_register base offset }
{
    match near(offset) {
        Some(disp) => Ea::Disp(base, disp),
        None => Ea::Index {
            base,
            x: index_d(FIRST_WORK),
            disp: 0,
        },
    }
}

fn push_base(items: &mut Vec<Item>, home: Home) -> Result<(), Memory>
    ensures { OnOk result (items.new.items ≡ items.old.items ++ base_items home) }
{
    match home {
        Home::A(_) => Ok(()),
        Home::D(i) => push_plain(
            items,
            Instr::MoveaL {
                from: Ea::D(i),
                to: WORK_ADDRESS,
            },
        ),
        Home::Stack(n) => push_plain(
            items,
            Instr::MoveaL {
                from: at_home(Home::Stack(n)),
                to: WORK_ADDRESS,
            },
        ),
        Home::Static(place) => push_plain(
            items,
            Instr::MoveaL {
                from: at_home(Home::Static(place)),
                to: WORK_ADDRESS,
            },
        ),
    }
}

/// The register with the address that a home holds.
fn base_of(home: Home) -> u8
    ensures { result ≡ base_of home }
{
    match home {
        Home::A(i) => i,
        Home::D(_) => WORK_ADDRESS,
        Home::Stack(_) => WORK_ADDRESS,
        Home::Static(_) => WORK_ADDRESS,
    }
}

#[tactic(auto, unfolding(lap_items::specs::Storage::access_items))]
fn push_access(items: &mut Vec<Item>, homes: &[Home], x: Operand, offset: i32) -> Result<(), Memory>
    ensures { OnOk result (items.new.items ≡ items.old.items ++ access_items homes.now x offset) }
{
    match x {
        Operand::Word(_) => Ok(()),
        Operand::Static(_) => Ok(()),
        Operand::Slot(bytes) => push_far(
            items,
            i64::from(bytes) + i64::from(offset),
            moved(bytes, offset),
        ),
        Operand::Var(v) => {
            push_base(items, home_of(homes, v))?;
            push_far(items, i64::from(offset), offset.cast_unsigned())
        }
        Operand::Code(block) => {
            push_source(items, Operand::Code(block))?;
            push_far(items, i64::from(offset), offset.cast_unsigned())
        }
    }
}

#[tactic(auto, unfolding(lap_items::specs::Storage::access_of))]
fn access_of(homes: &[Home], x: Operand, offset: i32) -> Ea
    ensures { result ≡ access_of homes.now x offset }
{
    match x {
        Operand::Word(n) => Ea::Abs(moved(n, offset)),
        Operand::Static(place) => Ea::Abs(moved(static_address(place), offset)),
        Operand::Slot(bytes) => from_register(TOP, i64::from(bytes) + i64::from(offset)),
        Operand::Var(v) => from_register(base_of(home_of(homes, v)), i64::from(offset)),
        Operand::Code(_) => from_register(WORK_ADDRESS, i64::from(offset)),
    }
}

/// The word at an address goes into a home.
#[tactic(auto, unfolding(lap_items::specs::Storage::read_items))]
pub fn push_read(
    items: &mut Vec<Item>,
    homes: &[Home],
    base: Operand,
    offset: i32,
    to: Home,
) -> Result<(), Memory>
    ensures { OnOk result (items.new.items ≡ items.old.items ++ read_items homes.now base offset to) }
{
    push_access(items, homes, base, offset)?;
    push_item(items, put_into(access_of(homes, base, offset), to))
}

#[tactic(auto, unfolding(lap_items::specs::Storage::kept_items))]
fn push_kept(items: &mut Vec<Item>, homes: &[Home], x: Operand) -> Result<(), Memory>
    ensures { OnOk result (items.new.items ≡ items.old.items ++ kept_items homes.now x) }
{
    match x {
        Operand::Code(block) => push_load(items, homes, Operand::Code(block), SECOND_WORK),
        Operand::Slot(bytes) => push_load(items, homes, Operand::Slot(bytes), SECOND_WORK),
        Operand::Var(_) => Ok(()),
        Operand::Word(_) => Ok(()),
        Operand::Static(_) => Ok(()),
    }
}

#[tactic(auto, unfolding(lap_items::specs::Storage::kept_of))]
fn kept_of(homes: &[Home], x: Operand) -> Ea
    ensures { result ≡ kept_of homes.now x }
{
    match x {
        Operand::Code(_) => Ea::D(SECOND_WORK),
        Operand::Slot(_) => Ea::D(SECOND_WORK),
        Operand::Var(v) => source_of(homes, Operand::Var(v)),
        Operand::Word(n) => source_of(homes, Operand::Word(n)),
        Operand::Static(place) => source_of(homes, Operand::Static(place)),
    }
}

/// A word is stored at an address.
#[tactic(auto, unfolding(lap_items::specs::Storage::write_items))]
pub fn push_write(
    items: &mut Vec<Item>,
    homes: &[Home],
    base: Operand,
    offset: i32,
    from: Operand,
) -> Result<(), Memory>
    ensures { OnOk result (items.new.items ≡ items.old.items ++ write_items homes.now base offset from) }
{
    push_kept(items, homes, from)?;
    push_access(items, homes, base, offset)?;
    push_plain(
        items,
        Instr::MoveL {
            from: kept_of(homes, from),
            to: access_of(homes, base, offset),
        },
    )
}
