//! What a call that runs a program answers.

ghost use Rattle.std.specs.Prelude.{◌≡◌};

use m68020_step::Why;
use machine_services::Exit;
use t_base::{Face, Fault};

/// What a call that runs a program answers.
#[derive(Clone, Copy, Debug, PartialEq, Eq)]
pub enum End {
    /// It halted with a value.
    Done(Face),
    /// It raised a fault.
    Fault(Fault),
    /// The heap or the stack has no room: bytes asked for and bytes left.
    Full { stack: bool, asked: u32, left: u32 },
    /// As many instructions ran as were asked for, and none of them ended it.
    Steps,
    /// The machine stopped, at the address of the instruction.
    Stop { why: Why, at: u32 },
    /// A put failed.
    Sink,
}

impl From<Exit> for End {
    ghost use Rattle.std.specs.Prelude.{◌≡◌, Some};
    ghost use Rattle.orbit_monitor.specs.Answering.{exit_of};

    ghost from_gives = { λ exit answer. exit_of answer ≡ Some exit };

    fn from(exit: Exit) -> End {
        match exit {
            Exit::Done(face) => End::Done(face),
            Exit::Fault(fault) => End::Fault(fault),
            Exit::Full { stack, asked, left } => End::Full { stack, asked, left },
            Exit::Stop { why, at } => End::Stop { why, at },
        }
    }
}
