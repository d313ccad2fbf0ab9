//! Sweeps over the items, each of which widens branches that do not reach their labels.

ghost use Rattle.std.specs.Prelude.{◌≡◌, ◌≢◌, ℕ, ◌+◌, ◌^◌, ◌<◌, ◌≤◌, Bool, true, false, not, List, length, slice_index, replicate, if◌then◌else◌};
ghost use Rattle.m68020_code.specs.Table.{width_holds};
ghost use Rattle.m68020_code.specs.declared.instr.Cond.{Cond};
ghost use Rattle.m68020_code.specs.declared.instr.Width.{Width as AWidth};
ghost use Rattle.m68020_asm.specs.declared.item.Item.TheVariants.{Branch, Label};
ghost use Rattle.m68020_asm.specs.Items.{CanAssemble, label_count, branch_size, address};
ghost use Rattle.m68020_asm.specs.Widths.{displacement, chosen, next_width, Fits, AtMost};
ghost use Rattle.m68020_asm.specs.Sweep.{must_widen, labels_after, IsSized, FitsBack, FitsAhead};

use crate::item::Item;
use crate::labels::CODE_START;
use crate::sizes::branch_size;
use m68020_code::Width;

/// From where a sweep towards the front counts addresses down: further than any code reaches.
const COUNT_FROM: u32 = 1 << 29;

/// How many bytes a branch goes: it counts from the branch's address plus 2. Both addresses are below 2^30.
pub fn displacement(from: u32, to: u32) -> i32
    requires from { from < 2 ^ 30 }
    requires to { to < 2 ^ 30 }
    ensures { result ≡ displacement from to }
{
    to as i32 - (from as i32 + 2)
}

fn holds(width: Width, disp: i32) -> bool
    ensures { result ≡ width_holds width disp }
{
    match width {
        Width::Byte => disp != 0 && disp != -1 && -128 <= disp && disp < 128,
        Width::Word => -32768 <= disp && disp < 32768,
        Width::Long => true,
    }
}

fn next_width(width: Width) -> Width
    ensures { result ≡ next_width width }
{
    match width {
        Width::Byte => Width::Word,
        Width::Word | Width::Long => Width::Long,
    }
}

/// Whether the item is a branch to a label that was passed, and does not reach it. A label that was not passed is listed with 0.
fn must_widen(item: &Item, width: Width, at: u32, labels: &[u32]) -> bool
    requires at { at < 2 ^ 30 }
    requires branch { (n : ℕ) (cond : Cond) → item.now ≡ Branch cond n → (n < length labels.now) × (slice_index labels.now n < 2 ^ 30) }
    ensures { result ≡ must_widen item.now width at labels.now }
{
    match item {
        Item::Branch(_, n) => {
            let label = labels[*n as usize];
            label != 0 && !holds(width, displacement(at, label))
        }
        Item::Plain(_) | Item::Label(_) | Item::CodeAddr { .. } => false,
    }
}

/// Passes the item at this address: lists a label, or widens a branch where it must. Says whether it did.
fn visit(item: &Item, width: &mut Width, size: &mut u8, at: u32, labels: &mut [u32]) -> bool
    requires at { at < 2 ^ 30 }
    requires label { (n : ℕ) → item.now ≡ Label n → n < length labels.old }
    requires branch { (n : ℕ) (cond : Cond) → item.now ≡ Branch cond n → (n < length labels.old) × (slice_index labels.old n < 2 ^ 30) }
    ensures widens { result ≡ must_widen item.now width.old at labels.old }
    ensures width { width.new ≡ (if must_widen item.now width.old at labels.old then next_width width.old else width.old) }
    ensures size { size.new ≡ (if must_widen item.now width.old at labels.old then branch_size (next_width width.old) else size.old) }
    ensures labels { labels.new ≡ labels_after item.now at labels.old }
{
    if must_widen(item, *width, at, labels) {
        *width = next_width(*width);
        *size = branch_size(*width);
        return true;
    }
    if let Item::Label(n) = item {
        labels[*n as usize] = at;
    }
    false
}

/// No label has been passed.
fn forget(labels: &mut [u32])
    ensures { labels.new ≡ replicate (length labels.old) 0 }
{
    labels.fill(0);
}

/// From the front to the end, over branches to labels before them.
fn sweep_to_end(items: &[Item], widths: &mut [Width], sizes: &mut [u8], labels: &mut [u32]) -> bool
    requires items { CanAssemble items.now }
    requires sized { IsSized items.now widths.old sizes.old }
    requires labels { length labels.old ≡ label_count items.now }
    ensures sized { IsSized items.now widths.new sizes.new }
    // No choice that fits is overtaken.
    ensures least { (other : ℕ → AWidth) → Fits items.now other → AtMost (chosen widths.old) other → AtMost (chosen widths.new) other }
    ensures fits { result ≡ false → (widths.new ≡ widths.old) × FitsBack items.now (chosen widths.old) }
    ensures longer { result ≡ true → address items.now (chosen widths.old) (length items.now) < address items.now (chosen widths.new) (length items.now) }
{
    forget(labels);
    let mut at = CODE_START;
    let mut changed = false;
    for (k, item) in items.iter().enumerate() {
        if visit(item, &mut widths[k], &mut sizes[k], at, labels) {
            changed = true;
        }
        at += u32::from(sizes[k]);
    }
    changed
}

/// From the end to the front, over branches to labels behind them. A chain of these is widened in one sweep.
fn sweep_to_front(
    items: &[Item],
    widths: &mut [Width],
    sizes: &mut [u8],
    labels: &mut [u32],
) -> bool
    requires items { CanAssemble items.now }
    requires sized { IsSized items.now widths.old sizes.old }
    requires labels { length labels.old ≡ label_count items.now }
    ensures sized { IsSized items.now widths.new sizes.new }
    ensures least { (other : ℕ → AWidth) → Fits items.now other → AtMost (chosen widths.old) other → AtMost (chosen widths.new) other }
    ensures fits { result ≡ false → (widths.new ≡ widths.old) × FitsAhead items.now (chosen widths.old) }
    ensures longer { result ≡ true → address items.now (chosen widths.old) (length items.now) < address items.now (chosen widths.new) (length items.now) }
{
    forget(labels);
    let mut at = COUNT_FROM;
    let mut changed = false;
    let mut k = items.len();
    while k > 0 {
        k -= 1;
        let from = at - u32::from(sizes[k]);
        if visit(&items[k], &mut widths[k], &mut sizes[k], from, labels) {
            changed = true;
        }
        at -= u32::from(sizes[k]);
    }
    changed
}

/// One sweep in each direction. Says whether a branch was widened.
pub fn sweep(items: &[Item], widths: &mut [Width], sizes: &mut [u8], labels: &mut [u32]) -> bool
    requires items { CanAssemble items.now }
    requires sized { IsSized items.now widths.old sizes.old }
    requires labels { length labels.old ≡ label_count items.now }
    ensures sized { IsSized items.now widths.new sizes.new }
    ensures least { (other : ℕ → AWidth) → Fits items.now other → AtMost (chosen widths.old) other → AtMost (chosen widths.new) other }
    ensures fits { result ≡ false → (widths.new ≡ widths.old) × Fits items.now (chosen widths.old) }
    ensures longer { result ≡ true → address items.now (chosen widths.old) (length items.now) < address items.now (chosen widths.new) (length items.now) }
{
    let to_end = sweep_to_end(items, widths, sizes, labels);
    let to_front = sweep_to_front(items, widths, sizes, labels);
    to_end || to_front
}
