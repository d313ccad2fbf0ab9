//! Why no image was built.

use std::alloc::AllocError;
use t_base::{Memory, Span};
use t_core::LimitFault;
use t_expand::{SyntaxFault, SyntaxKind};
use t_reader::{ReadFault, ReadKind};
use thiserror::Error;

/// Why a text has no image: its first fault by the grammar, the first refusal of its forms, the first limit that it passes, a form or node that
/// isn't built yet, or the want of memory.
#[derive(Debug, Drop, Error)]
pub enum BuildFault {
    /// The first fault of the text, and where it stands.
    #[error("the text has a fault")]
    Read { kind: ReadKind, span: Span },
    /// The first refusal of the forms, and where it stands.
    #[error("a form is refused")]
    Syntax { kind: SyntaxKind, span: Span },
    /// The first limit that the unit is over.
    #[error("the unit is over a limit")]
    Limit(LimitFault),
    /// Nothing is refused, but the unit has a defining form, or a node that is neither a fixnum nor a sum.
    #[error("not built yet")]
    Unbuilt,
    /// There was no memory, or this stands for what can't arise on a text.
    #[error("out of memory")]
    Memory,
}

impl From<ReadFault> for BuildFault {
    ghost use Rattle.std.specs.Prelude.{◌≡◌};
    ghost use Rattle.orbit_build.specs.Faults.{of_read};

    ghost from_gives = { λ f e. e ≡ of_read f };

    fn from(fault: ReadFault) -> Self {
        match fault {
            ReadFault::Fault { kind, span } => BuildFault::Read { kind, span },
            ReadFault::Memory => BuildFault::Memory,
        }
    }
}

impl From<SyntaxFault> for BuildFault {
    ghost use Rattle.std.specs.Prelude.{◌≡◌};
    ghost use Rattle.orbit_build.specs.Faults.{of_syntax};

    ghost from_gives = { λ f e. e ≡ of_syntax f };

    fn from(fault: SyntaxFault) -> Self {
        match fault {
            SyntaxFault::Fault { kind, span } => BuildFault::Syntax { kind, span },
            SyntaxFault::Memory => BuildFault::Memory,
        }
    }
}

impl From<LimitFault> for BuildFault {
    ghost use Rattle.std.specs.Prelude.{◌≡◌};
    ghost use Rattle.orbit_build.specs.declared.fault.BuildFault.TheVariants as faults;

    ghost from_gives = { λ f e. e ≡ faults.Limit f };

    fn from(fault: LimitFault) -> Self {
        BuildFault::Limit(fault)
    }
}

impl From<Memory> for BuildFault {
    ghost use Rattle.std.specs.Prelude.{◌≡◌};
    ghost use Rattle.orbit_build.specs.declared.fault.BuildFault.TheVariants as faults;

    ghost from_gives = { λ _ e. e ≡ faults.Memory };

    fn from(_: Memory) -> Self {
        BuildFault::Memory
    }
}

impl From<AllocError> for BuildFault {
    ghost use Rattle.std.specs.Prelude.{◌≡◌};
    ghost use Rattle.orbit_build.specs.declared.fault.BuildFault.TheVariants as faults;

    ghost from_gives = { λ _ e. e ≡ faults.Memory };

    fn from(_: AllocError) -> Self {
        BuildFault::Memory
    }
}
