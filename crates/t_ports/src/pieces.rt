//! Texts that are put in pieces.

ghost use Rattle.std.specs.Prelude.{◌≡◌, List, ℕ, [], ◌++◌, OnOk, OnErr, IfErr};
ghost use Rattle.t_ports.specs.Causes.{HasCause};
ghost use Rattle.t_ports.specs.Pieces.{text_of, TookFront, TookCount};

use crate::ports::{Failed, Sink};

/// Puts the pieces one after the other, up to the first put that fails. Then `taken` says how many bytes of all of them were
/// taken, up to `usize::MAX`.
pub fn put_all<S: Sink>(sink: &mut S, pieces: &[&[u8]]) -> Result<(), Failed>
    ensures ok { OnOk result (S.took sink.old (text_of pieces.now) sink.new) }
    // Where a put fails, a front of the text was taken.
    ensures part { OnErr result (TookFront S.took sink.old (text_of pieces.now) sink.new) }
    ensures err { IfErr result (λ e. TookCount S.took sink.old (text_of pieces.now) e.taken sink.new) }
    ensures cause { HasCause (S.faults sink.old) (S.faults sink.new) result }
{
    let mut done = 0usize;
    'pieces: for piece in pieces {
        match sink.put(piece) {
            Ok(()) => done = done.saturating_add(piece.len()),
            Err(failed) => {
                return Err(Failed {
                    taken: done.saturating_add(failed.taken),
                });
            }
        }
    }
    Ok(())
}
