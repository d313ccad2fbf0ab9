//! Operations.

ghost use Rattle.std.specs.Prelude.{◌≡◌, ◌∷◌, [], ◌++◌, OnOk};
ghost use Rattle.m68020_code.specs.declared.instr.Ea.TheVariants.{D, A};
ghost use Rattle.m68020_code.specs.declared.instr.Instr.TheVariants.{MoveL, SubL};
ghost use Rattle.m68020_asm.specs.declared.item.Item.TheVariants.{Plain};
ghost use Rattle.lap_items.specs.Operations.{move_items, take_items, bytes_of_words, push_items, op_items};
ghost use Rattle.lap_items.specs.Operands.{source_items, source_of};
ghost use Rattle.m68020_code.specs.declared.instr.Instr.TheVariants.{MoveaL};

use crate::arithmetic::push_arith;
use crate::bytes::push_read_byte;
use crate::homes::{TOP, home_of, put_into};
use crate::operands::{
    FIRST_WORK, SECOND_WORK, push_item, push_load, push_plain, push_source, source_of,
};
use crate::services::push_service;
use crate::storage::{push_read, push_write};
use m68020_asm::Item;
use m68020_code::{Cond, Ea, Instr};
use t_base::Memory;
use word_ir::{Home, Operand, WordOp};

/// The next free address of the heap, and the stack's and the heap's limits.
const NEXT: u8 = 4;

const STACK_LIMIT: u8 = 5;

const HEAP_LIMIT: u8 = 6;

/// The bytes of so many words, or as many as a long word holds.
fn bytes_of_words(words: u32) -> u32
    ensures { result ≡ bytes_of_words words }
{
    words.saturating_mul(4)
}

#[tactic(auto, unfolding(lap_items::specs::Operations::move_items))]
fn push_move(items: &mut Vec<Item>, homes: &[Home], to: Home, from: Operand) -> Result<(), Memory>
    ensures { OnOk result (items.new.items ≡ items.old.items ++ move_items homes.now to from) }
{
    push_source(items, from)?;
    push_item(items, put_into(source_of(homes, from), to))
}

/// What is left between two addresses goes into D7.
fn push_room(items: &mut Vec<Item>, limit: u8, from: u8) -> Result<(), Memory>
    ensures { OnOk result (items.new.items ≡ items.old.items ++ Plain (MoveL (A limit) (D 7)) ∷ Plain (SubL (A from) 7) ∷ []) }
{
    push_plain(
        items,
        Instr::MoveL {
            from: Ea::A(limit),
            to: Ea::D(SECOND_WORK),
        },
    )?;
    push_plain(
        items,
        Instr::SubL {
            from: Ea::A(from),
            to: SECOND_WORK,
        },
    )
}

#[tactic(auto, unfolding(lap_items::specs::Operations::take_items))]
fn push_take(
    items: &mut Vec<Item>,
    homes: &[Home],
    to: Home,
    bytes: Operand,
    full: u32,
) -> Result<(), Memory>
    ensures { OnOk result (items.new.items ≡ items.old.items ++ take_items homes.now to bytes full) }
{
    push_load(items, homes, bytes, FIRST_WORK)?;
    push_room(items, HEAP_LIMIT, NEXT)?;
    push_plain(
        items,
        Instr::CmpL {
            from: Ea::D(FIRST_WORK),
            to: SECOND_WORK,
        },
    )?;
    push_item(items, Item::Branch(Cond::Cs, full))?;
    push_plain(
        items,
        Instr::MoveL {
            from: Ea::A(NEXT),
            to: Ea::D(SECOND_WORK),
        },
    )?;
    push_plain(
        items,
        Instr::AddaL {
            from: Ea::D(FIRST_WORK),
            to: NEXT,
        },
    )?;
    push_item(items, put_into(Ea::D(SECOND_WORK), to))
}

#[tactic(auto, unfolding(lap_items::specs::Operations::push_items))]
fn push_push(items: &mut Vec<Item>, words: u32, full: u32) -> Result<(), Memory>
    ensures { OnOk result (items.new.items ≡ items.old.items ++ push_items words full) }
{
    push_room(items, TOP, STACK_LIMIT)?;
    push_plain(
        items,
        Instr::CmpiL {
            value: bytes_of_words(words),
            to: Ea::D(SECOND_WORK),
        },
    )?;
    push_item(items, Item::Branch(Cond::Cs, full))?;
    push_plain(
        items,
        Instr::SubaL {
            from: Ea::Imm(bytes_of_words(words)),
            to: TOP,
        },
    )
}

fn push_reset(items: &mut Vec<Item>, homes: &[Home], to: Operand) -> Result<(), Memory>
    ensures { OnOk result (items.new.items ≡ items.old.items ++ source_items to ++ Plain (MoveaL (source_of homes.now to) 7) ∷ []) }
{
    push_source(items, to)?;
    push_plain(
        items,
        Instr::MoveaL {
            from: source_of(homes, to),
            to: TOP,
        },
    )
}

/// The items of an operation.
#[tactic(auto, unfolding(lap_items::specs::Operations::op_items))]
pub fn push_op(items: &mut Vec<Item>, homes: &[Home], op: &WordOp) -> Result<(), Memory>
    ensures { OnOk result (items.new.items ≡ items.old.items ++ op_items homes.now op.now) }
{
    match op {
        WordOp::Move { to, from } => push_move(items, homes, home_of(homes, *to), *from),
        WordOp::Load { to, base, offset } => {
            push_read(items, homes, *base, *offset, home_of(homes, *to))
        }
        WordOp::LoadByte {
            to,
            base,
            index,
            offset,
        } => push_read_byte(items, homes, *base, *index, *offset, home_of(homes, *to)),
        WordOp::Store { base, offset, from } => push_write(items, homes, *base, *offset, *from),
        WordOp::Arith {
            to,
            kind,
            a,
            b,
            over,
        } => push_arith(items, homes, home_of(homes, *to), *kind, *a, *b, *over),
        WordOp::Take { to, bytes, full } => {
            push_take(items, homes, home_of(homes, *to), *bytes, *full)
        }
        WordOp::Push { words, full } => push_push(items, *words, *full),
        WordOp::Pop { words } => push_plain(
            items,
            Instr::AddaL {
                from: Ea::Imm(bytes_of_words(*words)),
                to: TOP,
            },
        ),
        WordOp::Service { number, args } => push_service(items, homes, *number, args.as_slice()),
        WordOp::Reset { to } => push_reset(items, homes, *to),
    }
}
