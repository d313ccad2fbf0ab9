//! What can be wrong with the forms of a text.

use std::alloc::{AllocError, AllocFailed};
use t_base::{Memory, Span};
use t_rows::SyntaxKind;

/// Why a unit has no core.
#[derive(Clone, Copy, Debug, PartialEq, Eq)]
pub enum SyntaxFault {
    /// The first refusal of the unit, and where it stands.
    Fault { kind: SyntaxKind, span: Span },
    /// There was no memory, or this stands for what can't arise on a text.
    Memory,
}

impl From<Memory> for SyntaxFault {
    ghost use Rattle.std.specs.Prelude.{◌≡◌};
    ghost use Rattle.t_expand.specs.declared.fault.SyntaxFault.TheVariants as faults;

    ghost from_gives = { λ _ e. e ≡ faults.Memory };

    fn from(_: Memory) -> Self {
        SyntaxFault::Memory
    }
}

impl From<AllocError> for SyntaxFault {
    ghost use Rattle.std.specs.Prelude.{◌≡◌};
    ghost use Rattle.t_expand.specs.declared.fault.SyntaxFault.TheVariants as faults;

    ghost from_gives = { λ _ e. e ≡ faults.Memory };

    fn from(_: AllocError) -> Self {
        SyntaxFault::Memory
    }
}

impl<T: Drop> From<AllocFailed<T>> for SyntaxFault {
    ghost use Rattle.std.specs.Prelude.{◌≡◌};
    ghost use Rattle.t_expand.specs.declared.fault.SyntaxFault.TheVariants as faults;

    ghost from_gives = { λ _ e. e ≡ faults.Memory };

    fn from(_: AllocFailed<T>) -> Self {
        SyntaxFault::Memory
    }
}
