//! Ends of blocks.

ghost use Rattle.std.specs.Prelude.{◌≡◌, ◌∷◌, [], ◌++◌, map, IfOk, OnOk};
ghost use Rattle.word_ir.specs.declared.words.WordEnd.TheVariants.{Jump, Enter};
ghost use Rattle.parallel_moves.specs.Moves.{AreParallel};
ghost use Rattle.m68020_code.specs.declared.instr.Ea.TheVariants.{D, Ind};
ghost use Rattle.m68020_code.specs.declared.instr.Instr.TheVariants.{MoveaL, AndiL, CmpL, CmpiL, Jmp};
ghost use Rattle.m68020_asm.specs.declared.item.Item.TheVariants.{Plain};
ghost use Rattle.lap_items.specs.Homes.{home_of};
ghost use Rattle.lap_items.specs.Operands.{source_items, source_of};
ghost use Rattle.lap_items.specs.Ends.{is_taken, homes_of_params, homes_of_block, places_of, condition_of, comparing_items, test_items, code_items, into_a3, end_moves};
ghost use Rattle.lap_emit.specs.Marks.{AreMarks};
ghost use Rattle.lap_emit.specs.Written.{AddsEnd};

use crate::moves::push_arguments;
use m68020_asm::Item;
use m68020_code::{Cond, Ea, Instr};
use operation_items::homes::home_of;
use operation_items::operands::{
    FIRST_WORK, SECOND_WORK, WORK_ADDRESS, push_item, push_load, push_plain, push_source, source_of,
};
use std::alloc::Global;
use t_base::{Memory, Var};
use word_ir::{Home, Operand, Placed, Test, WordBlock, WordEnd};

/// Where an Enter puts its arguments, and a block whose code is taken has its parameters at first.
pub const CONVENTION: [Home; 7] = [
    Home::D(0),
    Home::A(0),
    Home::D(1),
    Home::D(2),
    Home::D(3),
    Home::D(4),
    Home::D(5),
];

/// Whether a block's code is taken, by the marks of those that are.
pub fn is_taken(marks: &[bool], placed: &Placed, block: u32) -> bool
    requires { AreMarks marks.now placed.now.words }
    ensures { result ≡ is_taken placed.now.words block }
{
    if (block as usize) < marks.len() {
        marks[block as usize]
    } else {
        false
    }
}

fn homes_of_vars(alloc: Global, homes: &[Home], vars: &[Var]) -> Result<Vec<Home>, Memory>
    ensures { IfOk result (λ places. places.items ≡ map (home_of homes.now) vars.now) }
{
    let mut places = Vec::new(alloc);
    'vars: for n in 0..vars.len() {
        places.push(home_of(homes, vars[n]))?;
    }
    Ok(places)
}

/// The homes of a block's parameters.
pub fn homes_of_params(
    alloc: Global,
    homes: &[Home],
    block: &WordBlock,
) -> Result<Vec<Home>, Memory>
    ensures { IfOk result (λ places. places.items ≡ homes_of_params homes.now block.now) }
{
    homes_of_vars(alloc, homes, block.params.as_slice())
}

fn homes_of_block(alloc: Global, placed: &Placed, block: u32) -> Result<Vec<Home>, Memory>
    ensures { IfOk result (λ places. places.items ≡ homes_of_block placed.now block) }
{
    match placed.words.blocks.get(block as usize) {
        Some(target) => homes_of_params(alloc, placed.at.as_slice(), target),
        None => Ok(Vec::new(alloc)),
    }
}

/// Where a jump puts its arguments.
#[tactic(auto, unfolding(lap_items::specs::Ends::places_of))]
fn places_of(
    alloc: Global,
    marks: &[bool],
    placed: &Placed,
    block: u32,
) -> Result<Vec<Home>, Memory>
    requires { AreMarks marks.now placed.now.words }
    ensures { IfOk result (λ places. places.items ≡ places_of placed.now block) }
{
    if is_taken(marks, placed, block) {
        let places = Vec::from_slice(alloc, &CONVENTION)?;
        Ok(places)
    } else {
        homes_of_block(alloc, placed, block)
    }
}

/// The condition on which a test holds.
fn condition_of(kind: Test) -> Cond
    ensures { result ≡ condition_of kind }
{
    match kind {
        Test::Eq => Cond::Eq,
        Test::Lt => Cond::Lt,
        Test::Le => Cond::Le,
        Test::Below => Cond::Cs,
        Test::TagIs(_) => Cond::Eq,
    }
}

fn push_tag(items: &mut Vec<Item>, tag: u8) -> Result<(), Memory>
    ensures { OnOk result (items.new.items ≡ items.old.items ++ Plain (AndiL 3 (D 7)) ∷ Plain (CmpiL tag (D 7)) ∷ []) }
{
    push_plain(
        items,
        Instr::AndiL {
            value: 3,
            to: Ea::D(SECOND_WORK),
        },
    )?;
    push_plain(
        items,
        Instr::CmpiL {
            value: u32::from(tag),
            to: Ea::D(SECOND_WORK),
        },
    )
}

fn push_compared(items: &mut Vec<Item>, homes: &[Home], b: Operand) -> Result<(), Memory>
    ensures { OnOk result (items.new.items ≡ items.old.items ++ source_items b ++ Plain (CmpL (source_of homes.now b) 7) ∷ []) }
{
    push_source(items, b)?;
    push_plain(
        items,
        Instr::CmpL {
            from: source_of(homes, b),
            to: SECOND_WORK,
        },
    )
}

#[tactic(auto, unfolding(lap_items::specs::Ends::comparing_items))]
fn push_comparing(
    items: &mut Vec<Item>,
    homes: &[Home],
    kind: Test,
    b: Operand,
) -> Result<(), Memory>
    ensures { OnOk result (items.new.items ≡ items.old.items ++ comparing_items homes.now kind b) }
{
    match kind {
        Test::TagIs(tag) => push_tag(items, tag),
        Test::Eq => push_compared(items, homes, b),
        Test::Lt => push_compared(items, homes, b),
        Test::Le => push_compared(items, homes, b),
        Test::Below => push_compared(items, homes, b),
    }
}

#[tactic(auto, unfolding(lap_items::specs::Ends::test_items))]
fn push_test(
    items: &mut Vec<Item>,
    homes: &[Home],
    kind: Test,
    a: Operand,
    b: Operand,
    yes: u32,
    no: u32,
) -> Result<(), Memory>
    ensures { OnOk result (items.new.items ≡ items.old.items ++ test_items homes.now kind a b yes no) }
{
    push_load(items, homes, a, SECOND_WORK)?;
    push_comparing(items, homes, kind, b)?;
    push_item(items, Item::Branch(condition_of(kind), yes))?;
    push_item(items, Item::Branch(Cond::Bra, no))
}

#[tactic(auto, unfolding(lap_items::specs::Ends::code_items))]
fn push_code(items: &mut Vec<Item>, homes: &[Home], code: Operand) -> Result<(), Memory>
    ensures { OnOk result (items.new.items ≡ items.old.items ++ code_items homes.now code) }
{
    match code {
        Operand::Code(_) => Ok(()),
        Operand::Var(v) => push_load(items, homes, Operand::Var(v), FIRST_WORK),
        Operand::Word(n) => push_load(items, homes, Operand::Word(n), FIRST_WORK),
        Operand::Static(place) => push_load(items, homes, Operand::Static(place), FIRST_WORK),
        Operand::Slot(bytes) => push_load(items, homes, Operand::Slot(bytes), FIRST_WORK),
    }
}

fn kept_code() -> Item
    ensures { result ≡ Plain (MoveaL (D 6) 3) }
{
    Item::Plain(Instr::MoveaL {
        from: Ea::D(FIRST_WORK),
        to: WORK_ADDRESS,
    })
}

/// What puts the code's address into A3.
#[tactic(auto, unfolding(lap_items::specs::Ends::into_a3))]
fn into_a3(code: Operand) -> Item
    ensures { result ≡ into_a3 code }
{
    match code {
        Operand::Code(label) => Item::CodeAddr {
            reg: WORK_ADDRESS,
            label,
        },
        Operand::Var(_) => kept_code(),
        Operand::Word(_) => kept_code(),
        Operand::Static(_) => kept_code(),
        Operand::Slot(_) => kept_code(),
    }
}

fn push_jump(
    alloc: Global,
    items: &mut Vec<Item>,
    marks: &[bool],
    placed: &Placed,
    block: u32,
    args: &[Operand],
) -> Result<(), Memory>
    requires marks { AreMarks marks.now placed.now.words }
    requires parallel { AreParallel (end_moves placed.now (Jump block args.now)) }
    ensures { OnOk result (AddsEnd placed.now (Jump block args.now) items.old.items items.new.items) }
{
    let places = places_of(alloc, marks, placed, block)?;
    push_arguments(alloc, items, placed.at.as_slice(), args, places.as_slice())?;
    push_item(items, Item::Branch(Cond::Bra, block))
}

fn push_entering(items: &mut Vec<Item>, code: Operand) -> Result<(), Memory>
    ensures { OnOk result (items.new.items ≡ items.old.items ++ into_a3 code ∷ Plain (Jmp (Ind 3)) ∷ []) }
{
    push_item(items, into_a3(code))?;
    push_plain(items, Instr::Jmp(Ea::Ind(WORK_ADDRESS)))
}

fn push_enter(
    alloc: Global,
    items: &mut Vec<Item>,
    placed: &Placed,
    code: Operand,
    args: &[Operand],
) -> Result<(), Memory>
    requires { AreParallel (end_moves placed.now (Enter code args.now)) }
    ensures { OnOk result (AddsEnd placed.now (Enter code args.now) items.old.items items.new.items) }
{
    let homes = placed.at.as_slice();
    push_code(items, homes, code)?;
    push_arguments(alloc, items, homes, args, &CONVENTION)?;
    push_entering(items, code)
}

/// The items of a block's end.
pub fn push_end(
    alloc: Global,
    items: &mut Vec<Item>,
    marks: &[bool],
    placed: &Placed,
    end: &WordEnd,
) -> Result<(), Memory>
    requires marks { AreMarks marks.now placed.now.words }
    requires parallel { AreParallel (end_moves placed.now end.now) }
    ensures { OnOk result (AddsEnd placed.now end.now items.old.items items.new.items) }
{
    let homes = placed.at.as_slice();
    match end {
        WordEnd::Jump { block, args } => {
            push_jump(alloc, items, marks, placed, *block, args.as_slice())
        }
        WordEnd::Test {
            kind,
            a,
            b,
            yes,
            no,
        } => push_test(items, homes, *kind, *a, *b, *yes, *no),
        WordEnd::Enter { code, args } => push_enter(alloc, items, placed, *code, args.as_slice()),
        WordEnd::Stop => push_plain(items, Instr::Illegal),
    }
}
