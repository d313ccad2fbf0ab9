//! Why nothing comes of a file, and the line that says so.

ghost use Rattle.std.specs.Prelude.{◌≡◌};
ghost use Rattle.orbit_cli.specs.Changes.{change, Says};
ghost use Rattle.orbit_cli.specs.Parts.{refusal_line, refusal_status};

use crate::lines::{put_bad_image, put_long, put_over, put_source_fault, put_text, put_unread};
use crate::status::Status;
use image_file::ImageKind;
use t_base::Memory;
use t_core::LimitFault;
use t_ports::ports::Sink;
use t_reader::ReadKind;
use t_rows::SyntaxKind;

/// What a text is refused for.
#[derive(Clone, Copy, Debug, PartialEq, Eq)]
pub enum SourceKind {
    /// A fault of the grammar.
    Read(ReadKind),
    /// A rule that a form breaks.
    Syntax(SyntaxKind),
}

/// Why nothing comes of a file.
#[derive(Clone, Copy, Debug, PartialEq, Eq)]
pub enum Refusal {
    /// The folder could not read it.
    Unread,
    /// It has more bytes than are taken.
    Long,
    /// Its text has a fault of the grammar, or a form that is refused: which, and the line and column where it stands, from 1.
    Source {
        kind: SourceKind,
        line: u32,
        column: u32,
    },
    /// A count of its text is over this limit.
    Over(LimitFault),
    /// Its bytes are no image: what fails first, and at which byte.
    Bad {
        kind: ImageKind,
        at: u32,
    },
    /// Its text has a form that is not built yet.
    Unbuilt,
    /// The image of its text could not be kept.
    Unkept,
    /// There was no memory, or this stands for what can't arise on a text or an image.
    Memory,
}

impl From<Memory> for Refusal {
    ghost use Rattle.std.specs.Prelude.{◌≡◌};
    ghost use Rattle.orbit_cli.specs.declared.refusal.Refusal.TheVariants as refusals;

    ghost from_gives = { λ _ e. e ≡ refusals.Memory };

    fn from(_: Memory) -> Self {
        Refusal::Memory
    }
}

/// Puts the line of a refusal of the file of this name.
#[tactic(auto, using(crate::proofs::Reports::says))]
pub fn refuse<E: Sink>(name: &str, refusal: Refusal, err: &mut E) -> Status
    ensures status { result ≡ refusal_status refusal }
    ensures noted { Says E.Sink (change err.old err.new) (refusal_line name.now refusal) }
{
    match refusal {
        Refusal::Unread => {
            let _ = put_unread(err, name);
            Status::FetchFault
        }
        Refusal::Long => {
            let _ = put_long(err, name);
            Status::LongFile
        }
        Refusal::Source { kind, line, column } => {
            let _ = put_source_fault(err, name, line, column, kind);
            Status::SourceRefused
        }
        Refusal::Over(fault) => {
            let _ = put_over(err, name, fault);
            Status::Limit
        }
        Refusal::Bad { kind, at } => {
            let _ = put_bad_image(err, name, kind, at);
            Status::BadImage
        }
        Refusal::Unbuilt => {
            let _ = put_text(err, b"not built yet\n");
            Status::Unbuilt
        }
        Refusal::Unkept => {
            let _ = put_text(err, b"cannot write\n");
            Status::WriteFault
        }
        Refusal::Memory => {
            let _ = put_text(err, b"out of memory\n");
            Status::Memory
        }
    }
}
