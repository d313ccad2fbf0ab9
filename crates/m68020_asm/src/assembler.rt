//! From items to code.

ghost use Rattle.std.specs.Prelude.{◌≡◌, ℕ, length, IfOk};
ghost use Rattle.m68020_code.specs.declared.instr.Width.TheVariants.{Byte};
ghost use Rattle.m68020_asm.specs.Items.{CanAssemble, label_count};
ghost use Rattle.m68020_asm.specs.Widths.{chosen};
ghost use Rattle.m68020_asm.specs.Sweep.{IsSized};
ghost use Rattle.m68020_asm.specs.Assembled.{IsAssembled, IsSettled};

use crate::emit::emit;
use crate::item::{Code, Item};
use crate::labels::{label_count, place_labels};
use crate::sizes::least_sizes;
use crate::sweeps::sweep;
use m68020_code::Width;
use std::alloc::Global;
use t_base::Memory;

/// The code of the items: each branch with the smallest width, each label at its address. The only error is the want of memory.
///
/// The items are swept in both directions in turn, until no branch grows. Each sweep takes time linear in the items. Usual code
/// needs a few; at most there are two in each direction for each branch, and one more.
pub fn assemble(alloc: Global, items: &[Item]) -> Result<Code, Memory>
    requires { CanAssemble items.now }
    ensures { IfOk result (λ code. IsAssembled items.now code.bytes.items code.labels.items) }
{
    let mut widths = least_widths(alloc, items.len())?;
    let mut sizes = least_sizes(alloc, items)?;
    let mut labels = vec![in alloc; 0; label_count(items)]?;
    settle(items, &mut widths, &mut sizes, &mut labels);
    let bytes = emit(alloc, items, &widths, &sizes, &labels)?;
    Ok(Code { bytes, labels })
}

/// Widens branches until each reaches its label, and lists the addresses of the labels.
fn settle(items: &[Item], widths: &mut [Width], sizes: &mut [u8], labels: &mut [u32])
    requires items { CanAssemble items.now }
    requires sized { IsSized items.now widths.old sizes.old }
    requires bytes { (k : ℕ) → chosen widths.old k ≡ Byte }
    requires labels { length labels.old ≡ label_count items.now }
    ensures sized { IsSized items.now widths.new sizes.new }
    ensures settled { IsSettled items.now widths.new labels.new }
{
    while sweep(items, widths, sizes, labels) {}
    place_labels(items, widths, sizes, labels);
}

/// The smallest width for each item.
fn least_widths(alloc: Global, count: usize) -> Result<Vec<Width>, Memory>
    ensures len { IfOk result (λ widths. length widths.items ≡ count) }
    ensures bytes { IfOk result (λ widths. (k : ℕ) → chosen widths.items k ≡ Byte) }
{
    let mut widths = Vec::new(alloc);
    for _ in 0..count {
        widths.push(Width::Byte)?;
    }
    Ok(widths)
}
