//! How many labels there are, and their addresses.

ghost use Rattle.std.specs.Prelude.{◌≡◌, length};
ghost use Rattle.m68020_asm.specs.Items.{CanAssemble, label_count};
ghost use Rattle.m68020_asm.specs.Widths.{HasLabels, chosen};
ghost use Rattle.m68020_asm.specs.Sweep.{IsSized};

use crate::item::Item;
use m68020_code::Width;

/// Where code starts.
pub const CODE_START: u32 = 0x10000;

/// One more than the greatest label.
pub fn label_count(items: &[Item]) -> usize
    ensures { result ≡ label_count items.now }
{
    let mut count = 0;
    for item in items {
        if let Item::Label(n) = item {
            count = count.max(*n as usize + 1);
        }
    }
    count
}

/// Lists the address of each label.
pub fn place_labels(items: &[Item], widths: &[Width], sizes: &[u8], labels: &mut [u32])
    requires items { CanAssemble items.now }
    requires sized { IsSized items.now widths.now sizes.now }
    requires labels { length labels.old ≡ label_count items.now }
    ensures { HasLabels items.now (chosen widths.now) labels.new }
{
    let mut at = CODE_START;
    for (k, item) in items.iter().enumerate() {
        if let Item::Label(n) = item {
            labels[*n as usize] = at;
        }
        at += u32::from(sizes[k]);
    }
}
