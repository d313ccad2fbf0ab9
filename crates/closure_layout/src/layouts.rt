// The frames of a whole program.
ghost use Rattle.std.specs.Prelude.{◌≡◌, ℕ, [], false, length, IfOk, OnOk};
ghost use Rattle.cps_ir.specs.Parts.{is_assigned};
ghost use Rattle.cps_ir.specs.Whole.{IsWhole};
ghost use Rattle.layout_relation.specs.Laid.{IsLaidOut};
ghost use Rattle.layout_tables.specs.Sketches.{KnowsFirst};
ghost use Rattle.layout_relation.specs.Laws.{IsSmall};
ghost use Rattle.frame_ir.specs.Whole.{IsWhole as IsWholeFrames};
ghost use Rattle.layout_laws.specs.Wholeness.{AreOnHeap};
ghost use Rattle.layout_tables.specs.Additions.{Adds, SeesBelow};
ghost use Rattle.std.specs.List.{AllByRecursion};
ghost use Rattle.closure_layout.specs.Blocks.{AreLaid, StandFirst, IsLayout};

use crate::blocks::lay_block;
use crate::templates::are_templates;
use cps_ir::Cps;
use frame_ir::{Block, Frames};
use layout_laws::{distinct_arms_are_own, laid_out_is_on_heap, laid_out_is_whole};
use layout_relation::laid_out_is_small;
use layout_tables::{Request, Site, Tables, Work, are_small, copy_request, lam_needs, tables_of};
use std::alloc::Global;
use t_base::{Memory, Vars};

/// Asks for the codes of the procedures of globals and operations, in order.
fn request_firsts(tables: &Tables, work: &mut Work) -> Result<(), Memory>
    requires { work.old.requests.items ≡ [] }
    ensures stand { OnOk result (StandFirst tables.now tables.now.first work.new.requests.items) }
    ensures adds { OnOk result (Adds work.old work.new [] []) }
{
    for place in 0..tables.first {
        let Ok(l) = u32::try_from(place) else {
            return Err(Memory);
        };
        let count = lam_needs(tables, l).len();
        if count > 0 {
            return Err(Memory);
        }
        work.request(Request::CodeOf(l))?;
    }
    Ok(())
}

/// A block for each request, those that come on the way among them.
fn lay_blocks(
    alloc: Global,
    cps: &Cps,
    tables: &Tables,
    work: &mut Work,
) -> Result<Vec<Block>, Memory>
    requires first { KnowsFirst cps.now tables.now }
    requires sees { AllByRecursion (SeesBelow work.old.next) work.old.requests.items }
    ensures { IfOk result (λ blocks. AreLaid cps.now tables.now work.old work.new blocks.items) }
{
    let mut blocks = Vec::new(alloc);
    for place in 0..u32::MAX {
        if place as usize >= work.requests.len() {
            return Ok(blocks);
        }
        let Some(asked) = work.requests.get(place as usize) else {
            return Err(Memory);
        };
        let request = copy_request(alloc, asked)?;
        let block = lay_block(alloc, cps, tables, work, &request)?;
        blocks.push(block)?;
    }
    Err(Memory)
}

/// Frames that lay out a whole program, and what else makes them whole.
fn lay_out(alloc: Global, cps: Cps) -> Result<Frames, Memory>
    requires whole { IsWhole cps }
    requires unassigned { (x : ℕ) → is_assigned cps x ≡ false }
    ensures { IfOk result (IsLayout cps) }
{
    distinct_arms_are_own();
    let tables = tables_of(alloc, &cps)?;
    if !are_small(&cps, &tables) {
        return Err(Memory);
    }
    let mut work = Work {
        requests: Vec::new(alloc),
        templates: Vec::new(alloc),
        next: 0,
    };
    request_firsts(&tables, &mut work)?;
    let entry = work.request(Request::Begins {
        vars: Vars::from_vec(Vec::new(alloc)),
        site: Site::new(alloc, None),
        term: cps.entry,
    })?;
    let blocks = lay_blocks(alloc, &cps, &tables, &mut work)?;
    let frames = Frames {
        shared: cps.shared,
        blocks,
        entry,
        templates: work.templates,
    };
    if !are_templates(&frames) {
        return Err(Memory);
    }
    Ok(frames)
}

/// Frames that lay out a whole program in which no variable is assigned; they are whole, with small frames and records, and each closure
/// stands on the heap. Each LAMBDA has a block for its code, which fetches what it needs
/// from its closure, and one for its body; each continuation that waits has the block to which its call returns; a call in a tail place makes
/// no frame (Kranz 1988, on code generation). An object has a template, with a code for each method, which fetches what
/// all of them need out of the object. The shared parts are moved. The only error is the want of memory.
pub fn layout(alloc: Global, cps: Cps) -> Result<Frames, Memory>
    requires whole { IsWhole cps }
    requires unassigned { (x : ℕ) → is_assigned cps x ≡ false }
    ensures laid { IfOk result (IsLaidOut cps) }
    ensures whole { IfOk result IsWholeFrames }
    ensures small { IfOk result IsSmall }
    ensures heap { IfOk result AreOnHeap }
{
    laid_out_is_whole();
    laid_out_is_small();
    laid_out_is_on_heap();
    let frames = lay_out(alloc, cps)?;
    Ok(frames)
}
