//! Why some bytes are no image.

use std::alloc::{AllocError, AllocFailed};
use t_base::Memory;

/// What fails first. The kinds stand in the order in which they are looked at.
#[derive(Clone, Copy, Debug, PartialEq, Eq)]
pub enum ImageKind {
    /// I1: the first four bytes are not the magic, or there are fewer than four.
    Magic,
    /// I2: there are eight bytes, and the version is not 1.
    Version,
    /// I3: there are fewer than 32 bytes, or fewer than 32 and the three lengths add up to.
    Short,
    /// I4: there are more than 32 and the three lengths add up to.
    Long,
    /// I5: a field of the header, or a name, breaks its rule.
    Field,
}

/// Why no image was read.
#[derive(Clone, Copy, Debug, PartialEq, Eq)]
pub enum ImageFault {
    /// The first field that fails, and the offset of the byte at which it does.
    Fault { kind: ImageKind, at: u32 },
    /// The want of memory; no clause says when it comes.
    Memory,
}

impl From<AllocError> for ImageFault {
    ghost use Rattle.std.specs.Prelude.{◌≡◌};
    ghost use Rattle.image_file.specs.declared.fault.ImageFault.TheVariants.{Memory as OutOfMemory};

    ghost from_gives = { λ _ e. e ≡ OutOfMemory };

    fn from(_e: AllocError) -> ImageFault {
        ImageFault::Memory
    }
}

impl From<Memory> for ImageFault {
    ghost use Rattle.std.specs.Prelude.{◌≡◌};
    ghost use Rattle.image_file.specs.declared.fault.ImageFault.TheVariants.{Memory as OutOfMemory};

    ghost from_gives = { λ _ e. e ≡ OutOfMemory };

    fn from(_e: Memory) -> ImageFault {
        ImageFault::Memory
    }
}
