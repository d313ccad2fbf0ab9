//! How many slots a frame has.

ghost use Rattle.std.specs.Prelude.{◌≡◌, IfOk};
ghost use Rattle.frame_ir.specs.Operations.{slots_of};
ghost use Rattle.heap_drafts.specs.Slots.{change_of, record_at, Counts};

use crate::sizes::with_record;
use frame_ir::{FrameOp, Place};
use t_base::Memory;

/// What an operation does to the frames of its block: nothing, a closure that captures so much is built in the youngest one, one is pushed, or one is popped.
#[derive(Clone, Copy)]
pub enum Change {
    Same,
    Record(usize),
    Opens,
    Shuts,
}

/// The frames above one, and its slots so far; where it isn't open, it is popped.
#[derive(Clone, Copy)]
pub struct Count {
    pub open: bool,
    pub above: u32,
    pub slots: u32,
}

fn record_at(at: Place, captured: usize) -> Change
    ensures { result ≡ record_at at captured }
{
    match at {
        Place::Frame(_) => Change::Record(captured),
        Place::Heap => Change::Same,
        Place::Static => Change::Same,
    }
}

fn change_of(op: &FrameOp) -> Change
    ensures { result ≡ change_of op.now }
{
    match op {
        FrameOp::Closure { kept, at, .. } => record_at(*at, kept.as_slice().len()),
        FrameOp::Push { .. } => Change::Opens,
        FrameOp::CatchOpen { .. } => Change::Opens,
        FrameOp::Pop => Change::Shuts,
        FrameOp::CatchClose => Change::Shuts,
        _ => Change::Same,
    }
}

fn counted(change: Change, above: u32, slots: u32) -> Result<Count, Memory>
    ensures { IfOk result (Counts change above slots) }
{
    match change {
        Change::Same => Ok(Count {
            open: true,
            above,
            slots,
        }),
        Change::Record(captured) => {
            if above == 0 {
                let slots = with_record(slots, captured)?;
                return Ok(Count {
                    open: true,
                    above,
                    slots,
                });
            }
            Ok(Count {
                open: true,
                above,
                slots,
            })
        }
        Change::Opens => {
            let Some(above) = above.checked_add(1) else {
                return Err(Memory);
            };
            Ok(Count {
                open: true,
                above,
                slots,
            })
        }
        Change::Shuts => {
            if above == 0 {
                return Ok(Count {
                    open: false,
                    above,
                    slots,
                });
            }
            Ok(Count {
                open: true,
                above: above - 1,
                slots,
            })
        }
    }
}

/// The slots of the frame of a Push that keeps so many variables, with these operations behind it. The only error is the want of memory.
pub fn slots_of(ops: &[FrameOp], kept: usize) -> Result<u32, Memory>
    ensures { IfOk result (λ n. n ≡ slots_of ops.now kept) }
{
    let Ok(kept) = u32::try_from(kept) else {
        return Err(Memory);
    };
    let mut above = 0u32;
    let mut slots = kept;
    for op in ops {
        let count = counted(change_of(op), above, slots)?;
        if !count.open {
            return Ok(count.slots);
        }
        above = count.above;
        slots = count.slots;
    }
    Ok(slots)
}
