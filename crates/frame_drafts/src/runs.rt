//! Stores and loads one behind the other, and where words stand.

ghost use Rattle.std.specs.Prelude.{◌≡◌, ◌+◌, ◌*◌, [], ◌∷◌, pos, IfOk, OnOk};
ghost use Rattle.word_ir.specs.declared.operands.Operand.TheVariants as operand;
ghost use Rattle.frame_stacks.specs.Codes.{stores};
ghost use Rattle.frame_heap.specs.Codes.{heap_stores};
ghost use Rattle.frame_calls.specs.Codes.{store_operands};
ghost use Rattle.word_drafts.specs.Drafts.{Writes};

use t_base::{Memory, Var};
use word_drafts::Draft;
use word_ir::{Operand, WordOp};

/// The bytes of so many words. The only error, the want of memory, comes where they are too many for any program.
pub fn bytes_of(words: u32) -> Result<u32, Memory>
    ensures { IfOk result (λ bytes. bytes ≡ 4 * words) }
{
    if words > 0x0FFF_FFFF {
        return Err(Memory);
    }
    Ok(4 * words)
}

/// The word of a slot behind the two first words of a frame.
pub(crate) fn slot_at(slot: u32) -> Result<Operand, Memory>
    ensures { IfOk result (λ x. x ≡ operand.Slot (4 * (2 + slot))) }
{
    if slot > 0x0FFF_FFFF {
        return Err(Memory);
    }
    Ok(Operand::Slot(4 * (2 + slot)))
}

/// Where a closure has what it captured, from its tagged address on.
pub(crate) fn offset_of(slot: u32) -> Result<i32, Memory>
    ensures { IfOk result (λ offset. offset ≡ pos (4 * slot + 10)) }
{
    if slot > 0x0FFF_FFFF {
        return Err(Memory);
    }
    Ok((4 * slot + 10).cast_signed())
}

/// The static word of a global.
pub(crate) fn global_at(global: u32) -> Result<Operand, Memory>
    ensures { IfOk result (λ x. x ≡ operand.Static (17 + global)) }
{
    if global > 0x0FFF_FFFF {
        return Err(Memory);
    }
    Ok(Operand::Static(17 + global))
}

/// One word of the youngest frame.
fn store(draft: &mut Draft, place: u32, x: Operand) -> Result<(), Memory>
    ensures { OnOk result (Writes (stores place (x ∷ [])) draft.old draft.new) }
{
    let bytes = bytes_of(place)?;
    draft.line(WordOp::Store {
        base: Operand::Slot(bytes),
        offset: 0,
        from: x,
    })?;
    Ok(())
}

/// Words of the youngest frame from one on. The only error is the want of memory.
pub fn stores(draft: &mut Draft, place: u32, xs: &[Operand]) -> Result<(), Memory>
    ensures { OnOk result (Writes (stores place xs.now) draft.old draft.new) }
{
    let mut at = place;
    for x in xs {
        store(draft, at, *x)?;
        let Some(next) = at.checked_add(1) else {
            return Err(Memory);
        };
        at = next;
    }
    Ok(())
}

/// Words of the heap from one on, behind the address that the variable t holds. The only error is the want of memory.
pub fn heap_stores(draft: &mut Draft, t: u32, place: u32, xs: &[Operand]) -> Result<(), Memory>
    ensures { OnOk result (Writes (heap_stores t place xs.now) draft.old draft.new) }
{
    let mut at = place;
    for x in xs {
        heap_store(draft, t, at, *x)?;
        let Some(next) = at.checked_add(1) else {
            return Err(Memory);
        };
        at = next;
    }
    Ok(())
}

/// One word of the heap.
fn heap_store(draft: &mut Draft, t: u32, place: u32, x: Operand) -> Result<(), Memory>
    ensures { OnOk result (Writes (heap_stores t place (x ∷ [])) draft.old draft.new) }
{
    let bytes = bytes_of(place)?;
    if bytes > 0x7FFF_FFFF {
        return Err(Memory);
    }
    draft.line(WordOp::Store {
        base: Operand::Var(Var(t)),
        offset: bytes.cast_signed(),
        from: x,
    })?;
    Ok(())
}

/// One further operand.
fn store_operand(draft: &mut Draft, i: u32, x: Operand) -> Result<(), Memory>
    ensures { OnOk result (Writes (store_operands i (x ∷ [])) draft.old draft.new) }
{
    let Some(place) = i.checked_add(2) else {
        return Err(Memory);
    };
    draft.line(WordOp::Store {
        base: Operand::Static(place),
        offset: 0,
        from: x,
    })?;
    Ok(())
}

/// Further operands from one on. The only error is the want of memory.
pub fn store_operands(draft: &mut Draft, i: u32, xs: &[Operand]) -> Result<(), Memory>
    ensures { OnOk result (Writes (store_operands i xs.now) draft.old draft.new) }
{
    let mut at = i;
    for x in xs {
        store_operand(draft, at, *x)?;
        let Some(next) = at.checked_add(1) else {
            return Err(Memory);
        };
        at = next;
    }
    Ok(())
}
