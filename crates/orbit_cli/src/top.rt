//! The top call: what the words ask for is done over the folder, `out` and `err`.

ghost use Rattle.std.specs.Prelude.{◌≡◌, map};
ghost use Rattle.std.specs.String.{string_bytes};
ghost use Rattle.orbit_cli.specs.Lines.{usage_line};
ghost use Rattle.orbit_cli.specs.Changes.{change, Says};
ghost use Rattle.orbit_cli.specs.Command.{view_of, HasBounds};
ghost use Rattle.orbit_cli.specs.Outcome.{Outcome, CommandOutcome};

use crate::commands::{check, compile_and_run, compile_text, list_image, run_image};
use crate::lines::put_text;
use crate::status::Status;
use crate::words::{Command, read_words};
use std::alloc::Global;
use t_ports::ports::{Folder, Sink};

// Puts the usage line.
#[tactic(auto, using(crate::proofs::Reports::says))]
fn misused<E: Sink>(err: &mut E) -> Status
    ensures status { result ≡ Status.Usage }
    ensures noted { Says E.Sink (change err.old err.new) usage_line }
{
    let _ = put_text(
        err,
        b"usage: orbit compile SRC IMG | run IMG HEAP STACK STEPS | go SRC IMG HEAP STACK STEPS | check SRC | list IMG | trial N STEPS\n",
    );
    Status::Usage
}

/// Does what the words ask for.
///
/// The words are those of the command line without the program's own name. What the command comes to, by its status, is told
/// by `Outcome`: what stands on `out` and `err`, what the folder holds, and why.
pub fn orbit<F: Folder, S: Sink, E: Sink>(
    alloc: Global,
    words: &[String],
    folder: &mut F,
    out: &mut S,
    err: &mut E,
) -> Status
    ensures { Outcome F.Folder S.Sink E.Sink (change folder.old folder.new) (change out.old out.new) (change err.old err.new) (map string_bytes words.now) result }
{
    match read_words(words) {
        None => misused(err),
        Some(Command::Compile { src, img }) => compile_text(alloc, src, img, folder, err),
        Some(Command::Run { img, bounds }) => run_image(alloc, img, bounds, folder, out, err),
        Some(Command::Go { src, img, bounds }) => {
            compile_and_run(alloc, src, img, bounds, folder, out, err)
        }
        Some(Command::Check { src }) => check(alloc, src, folder, out, err),
        Some(Command::List { img }) => list_image(alloc, img, folder, out, err),
    }
}
