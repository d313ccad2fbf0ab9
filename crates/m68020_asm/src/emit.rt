//! The bytes of the items.

ghost use Rattle.std.specs.Prelude.{◌≡◌, ℕ, ◌+◌, ◌++◌, ◌^◌, ◌<◌, ◌≤◌, [], true, List, length, slice_get, slice_index, Some, IsTrue, IfOk, OnOk};
ghost use Rattle.m68020_code.specs.declared.instr.Cond.{Cond};
ghost use Rattle.m68020_code.specs.Table.{is_row, spelling, width_holds};
ghost use Rattle.m68020_asm.specs.declared.item.Item.TheVariants.{Branch, CodeAddr};
ghost use Rattle.m68020_asm.specs.Items.{IsItem, CanAssemble, label_count, address};
ghost use Rattle.m68020_asm.specs.Widths.{displacement, chosen, HasLabels, Fits};
ghost use Rattle.m68020_asm.specs.Assembled.{bytes_of, code_before};
ghost use Rattle.m68020_asm.specs.Sweep.{IsSized};

use crate::item::Item;
use crate::labels::CODE_START;
use crate::sweeps::displacement;
use m68020_code::{Ea, Instr, Width, encode};
use std::alloc::Global;
use t_base::Memory;

fn put_row(out: &mut Vec<u8>, row: &Instr) -> Result<(), Memory>
    requires { IsTrue (is_row row.now) }
    ensures { OnOk result (out.new.items ≡ out.old.items ++ spelling row.now) }
{
    let mut bytes = [0; 10];
    match encode(row, &mut bytes) {
        Some(size) => out.extend_from_slice(&bytes[..size])?,
        None => unreachable!(),
    }
    Ok(())
}

/// The bytes of an item at this address, whose label's address is listed.
fn put_item(
    out: &mut Vec<u8>,
    item: &Item,
    width: Width,
    at: u32,
    labels: &[u32],
) -> Result<(), Memory>
    requires item { IsItem item.now }
    requires at { at < 2 ^ 30 }
    requires branch { (n : ℕ) (cond : Cond) → item.now ≡ Branch cond n → (n < length labels.now) × (slice_index labels.now n < 2 ^ 30) × (width_holds width (displacement at (slice_index labels.now n)) ≡ true) }
    requires address { (n reg : ℕ) → item.now ≡ CodeAddr reg n → n < length labels.now }
    ensures { OnOk result (out.new.items ≡ out.old.items ++ bytes_of labels.now item.now width at) }
{
    match item {
        Item::Plain(i) => put_row(out, i),
        Item::Label(_) => Ok(()),
        Item::Branch(cond, n) => {
            let disp = displacement(at, labels[*n as usize]);
            put_row(
                out,
                &Instr::Bcc {
                    cond: *cond,
                    width,
                    disp,
                },
            )
        }
        Item::CodeAddr { reg, label } => {
            let from = Ea::Abs(labels[*label as usize]);
            put_row(out, &Instr::Lea { from, to: *reg })
        }
    }
}

/// The bytes of all items.
pub fn emit(
    alloc: Global,
    items: &[Item],
    widths: &[Width],
    sizes: &[u8],
    labels: &[u32],
) -> Result<Vec<u8>, Memory>
    requires items { CanAssemble items.now }
    requires sized { IsSized items.now widths.now sizes.now }
    requires labels { length labels.now ≡ label_count items.now }
    requires placed { HasLabels items.now (chosen widths.now) labels.now }
    requires fits { Fits items.now (chosen widths.now) }
    ensures { IfOk result (λ out. out.items ≡ code_before items.now (chosen widths.now) labels.now (length items.now)) }
{
    let mut out = Vec::new(alloc);
    let mut at = CODE_START;
    for (k, item) in items.iter().enumerate() {
        put_item(&mut out, item, widths[k], at, labels)?;
        at += u32::from(sizes[k]);
    }
    Ok(out)
}
