//! Arithmetic.

ghost use Rattle.std.specs.Prelude.{◌≡◌, ◌∷◌, [], ◌++◌, OnOk};
ghost use Rattle.word_ir.specs.declared.words.Arith.TheVariants.{Add, Sub, Mul};
ghost use Rattle.m68020_code.specs.declared.instr.Cond.TheVariants.{Vs};
ghost use Rattle.m68020_code.specs.declared.instr.Ea.TheVariants.{D};
ghost use Rattle.m68020_code.specs.declared.instr.Instr.TheVariants.{AndL, OrL, DivslL};
ghost use Rattle.m68020_asm.specs.declared.item.Item.TheVariants.{Plain, Branch};
ghost use Rattle.lap_items.specs.Operands.{source_of, load_items, settled_items, settled};
ghost use Rattle.lap_items.specs.Arithmetic.{left_shift, right_shift, left_items, right_items, shift_items, computing_items, result_in, arith_items};

use crate::homes::put_into;
use crate::operands::{
    FIRST_WORK, SECOND_WORK, push_item, push_load, push_plain, push_settled, push_source, settled,
    source_of,
};
use m68020_asm::Item;
use m68020_code::{Cond, Ea, Instr};
use t_base::Memory;
use word_ir::{Arith, Home, Operand};

/// An instruction whose result doesn't fit where V is set.
fn push_tested(items: &mut Vec<Item>, i: Instr, over: u32) -> Result<(), Memory>
    ensures { OnOk result (items.new.items ≡ items.old.items ++ Plain i ∷ Branch Vs over ∷ []) }
{
    push_plain(items, i)?;
    push_item(items, Item::Branch(Cond::Vs, over))
}

fn push_left(items: &mut Vec<Item>, count: u8, over: u32) -> Result<(), Memory>
    ensures { OnOk result (items.new.items ≡ items.old.items ++ left_shift over count) }
{
    push_tested(
        items,
        Instr::AslL {
            count,
            to: SECOND_WORK,
        },
        over,
    )
}

fn push_lefts(items: &mut Vec<Item>, count: u8, over: u32) -> Result<(), Memory>
    ensures { OnOk result (items.new.items ≡ items.old.items ++ left_items over count) }
{
    'eights: for eight in 0..count / 8 {
        push_left(items, 8, over)?;
    }
    if count % 8 == 0 {
        Ok(())
    } else {
        push_left(items, count % 8, over)
    }
}

fn push_right(items: &mut Vec<Item>, count: u8) -> Result<(), Memory>
    ensures { OnOk result (items.new.items ≡ items.old.items ++ right_shift count) }
{
    push_plain(
        items,
        Instr::AsrL {
            count,
            to: SECOND_WORK,
        },
    )
}

fn push_rights(items: &mut Vec<Item>, count: u8) -> Result<(), Memory>
    ensures { OnOk result (items.new.items ≡ items.old.items ++ right_items count) }
{
    'eights: for eight in 0..count / 8 {
        push_right(items, 8)?;
    }
    if count % 8 == 0 {
        Ok(())
    } else {
        push_right(items, count % 8)
    }
}

fn push_shift(items: &mut Vec<Item>, count: i8, over: u32) -> Result<(), Memory>
    ensures { OnOk result (items.new.items ≡ items.old.items ++ shift_items count over) }
{
    if count >= 0 {
        push_lefts(items, (count as u8).min(32), over)
    } else {
        push_rights(items, count.unsigned_abs().min(31))
    }
}

fn push_division(items: &mut Vec<Item>, homes: &[Home], b: Operand, over: u32) -> Result<(), Memory>
    ensures { OnOk result (items.new.items ≡ items.old.items ++ load_items homes.now b 6 ++ Plain (DivslL (D 6) 7 6) ∷ Branch Vs over ∷ []) }
{
    push_load(items, homes, b, FIRST_WORK)?;
    push_tested(
        items,
        Instr::DivslL {
            from: Ea::D(FIRST_WORK),
            quotient: SECOND_WORK,
            remainder: FIRST_WORK,
        },
        over,
    )
}

#[tactic(auto, unfolding(lap_items::specs::Arithmetic::computing_items))]
fn push_sum(items: &mut Vec<Item>, homes: &[Home], b: Operand, over: u32) -> Result<(), Memory>
    ensures { OnOk result (items.new.items ≡ items.old.items ++ computing_items homes.now Add b over) }
{
    push_source(items, b)?;
    push_tested(
        items,
        Instr::AddL {
            from: source_of(homes, b),
            to: SECOND_WORK,
        },
        over,
    )
}

#[tactic(auto, unfolding(lap_items::specs::Arithmetic::computing_items))]
fn push_difference(
    items: &mut Vec<Item>,
    homes: &[Home],
    b: Operand,
    over: u32,
) -> Result<(), Memory>
    ensures { OnOk result (items.new.items ≡ items.old.items ++ computing_items homes.now Sub b over) }
{
    push_source(items, b)?;
    push_tested(
        items,
        Instr::SubL {
            from: source_of(homes, b),
            to: SECOND_WORK,
        },
        over,
    )
}

#[tactic(auto, unfolding(lap_items::specs::Arithmetic::computing_items))]
fn push_product(items: &mut Vec<Item>, homes: &[Home], b: Operand, over: u32) -> Result<(), Memory>
    ensures { OnOk result (items.new.items ≡ items.old.items ++ computing_items homes.now Mul b over) }
{
    push_settled(items, homes, b)?;
    push_tested(
        items,
        Instr::MulsL {
            from: settled(source_of(homes, b)),
            to: SECOND_WORK,
        },
        over,
    )
}

fn push_bitwise_and(items: &mut Vec<Item>, homes: &[Home], b: Operand) -> Result<(), Memory>
    ensures { OnOk result (items.new.items ≡ items.old.items ++ settled_items homes.now b ++ Plain (AndL (settled (source_of homes.now b)) 7) ∷ []) }
{
    push_settled(items, homes, b)?;
    push_plain(
        items,
        Instr::AndL {
            from: settled(source_of(homes, b)),
            to: SECOND_WORK,
        },
    )
}

fn push_bitwise_or(items: &mut Vec<Item>, homes: &[Home], b: Operand) -> Result<(), Memory>
    ensures { OnOk result (items.new.items ≡ items.old.items ++ settled_items homes.now b ++ Plain (OrL (settled (source_of homes.now b)) 7) ∷ []) }
{
    push_settled(items, homes, b)?;
    push_plain(
        items,
        Instr::OrL {
            from: settled(source_of(homes, b)),
            to: SECOND_WORK,
        },
    )
}

#[tactic(auto, unfolding(lap_items::specs::Arithmetic::computing_items))]
fn push_computing(
    items: &mut Vec<Item>,
    homes: &[Home],
    kind: Arith,
    b: Operand,
    over: u32,
) -> Result<(), Memory>
    ensures { OnOk result (items.new.items ≡ items.old.items ++ computing_items homes.now kind b over) }
{
    match kind {
        Arith::Add => push_sum(items, homes, b, over),
        Arith::Sub => push_difference(items, homes, b, over),
        Arith::Mul => push_product(items, homes, b, over),
        Arith::Quotient => push_division(items, homes, b, over),
        Arith::Remainder => push_division(items, homes, b, over),
        Arith::Shift(count) => push_shift(items, count, over),
        Arith::And => push_bitwise_and(items, homes, b),
        Arith::Or => push_bitwise_or(items, homes, b),
    }
}

/// The data register that has the result.
fn result_in(kind: Arith) -> u8
    ensures { result ≡ result_in kind }
{
    match kind {
        Arith::Remainder => FIRST_WORK,
        Arith::Add => SECOND_WORK,
        Arith::Sub => SECOND_WORK,
        Arith::Mul => SECOND_WORK,
        Arith::Quotient => SECOND_WORK,
        Arith::Shift(_) => SECOND_WORK,
        Arith::And => SECOND_WORK,
        Arith::Or => SECOND_WORK,
    }
}

/// The result of two operands goes into a home.
#[tactic(auto, unfolding(lap_items::specs::Arithmetic::arith_items))]
pub fn push_arith(
    items: &mut Vec<Item>,
    homes: &[Home],
    to: Home,
    kind: Arith,
    a: Operand,
    b: Operand,
    over: u32,
) -> Result<(), Memory>
    ensures { OnOk result (items.new.items ≡ items.old.items ++ arith_items homes.now to kind a b over) }
{
    push_load(items, homes, a, SECOND_WORK)?;
    push_computing(items, homes, kind, b, over)?;
    push_item(items, put_into(Ea::D(result_in(kind)), to))
}
