//! From an image to a program in the machine.

ghost use Rattle.std.specs.Prelude.{IsTrue, length, IfOk, ◌≡◌};
ghost use Rattle.image_file.specs.Grammar.{parts_of};
ghost use Rattle.m68020_step.specs.Boot.{is_code_length, is_statics_length, is_size};
ghost use Rattle.orbit_monitor.specs.Answering.{fresh};

use crate::monitor::Boot;
use image_file::Image;
use m68020_step::{Machine, Sizes};
use std::alloc::Global;
use t_base::Memory;

/// Loads a copy of an image, with so many bytes of heap and stack, ready for its first instruction. Its only error is want of
/// memory; a run takes none.
pub fn boot(alloc: Global, image: &Image, sizes: Sizes) -> Result<Boot, Memory>
    requires code { IsTrue (is_code_length (length image.now.code.items)) }
    requires statics { IsTrue (is_statics_length (length image.now.statics.items)) }
    requires heap { IsTrue (is_size sizes.heap) }
    requires stack { IsTrue (is_size sizes.stack) }
    ensures { IfOk result (λ b. b ≡ fresh (parts_of image.now) sizes) }
{
    let names = image.names.copy(alloc)?;
    let code = image.code.as_slice().to_vec(alloc)?;
    let statics = image.statics.as_slice().to_vec(alloc)?;
    let machine = Machine::new(alloc, code, statics, image.entry, sizes)?;
    Ok(Boot {
        names,
        machine,
        end: None,
        last: None,
    })
}
