//! What is put of an image, which is of its run or its listing, and of a text that is checked.

ghost use Rattle.std.specs.Prelude.{◌≡◌, ◌<◌, [], get_or, length};
ghost use Rattle.t_base.specs.declared.faults.Face.{Face};
ghost use Rattle.word_faces.specs.Faces.{shown_of};
ghost use Rattle.orbit_monitor.specs.Answering.{FaceIsNamed};
ghost use Rattle.orbit_cli.specs.Lines.{shown_text, value_line, counts_line, write_line};
ghost use Rattle.orbit_cli.specs.Answer.{full_status, answer_on, printed};
ghost use Rattle.orbit_cli.specs.Changes.{change, Says, IsPut, HasTakenAll};
ghost use Rattle.orbit_cli.specs.Outcome.{IfServed};
ghost use Rattle.orbit_cli.specs.Parts.{Reports};

use crate::lines::{
    kind_name, put_character_value, put_counts, put_fault, put_full, put_limit, put_number_value,
    put_stop, put_text, put_value,
};
use crate::prepare::Counts;
use crate::status::Status;
use orbit_monitor::{Boot, End, run};
use t_base::{Face, Name};
use t_ports::ports::{Failed, Sink};

// Puts the line of a symbol by its name.
fn put_symbol<S: Sink>(boot: &Boot, name: Name, out: &mut S) -> Result<(), Failed>
    requires { name.0 < length boot.now.names }
    ensures { IsPut S.Sink (change out.old out.new) (value_line boot.now.last (get_or boot.now.names name.0 [])) result }
{
    put_value(out, boot.last_byte(), boot.name_of(name))
}

// Puts the line of a value with this face, behind what the program put.
fn put_face<S: Sink>(boot: &Boot, face: Face, out: &mut S) -> Result<(), Failed>
    requires { FaceIsNamed boot.now.names face }
    ensures { IsPut S.Sink (change out.old out.new) (value_line boot.now.last (shown_text (shown_of boot.now.names face))) result }
{
    let last = boot.last_byte();
    match face {
        Face::Fix(number) => put_number_value(out, last, number),
        Face::Char(code) => put_character_value(out, last, code),
        Face::Nil => put_value(out, last, b"()"),
        Face::True => put_value(out, last, b"#t"),
        Face::Symbol(name) => put_symbol(boot, name, out),
        Face::Kind(kind) => put_value(out, last, kind_name(kind)),
    }
}

// Puts the line that something could not be written.
#[tactic(auto, using(crate::proofs::Reports::says))]
fn unwritten<E: Sink>(err: &mut E) -> Status
    ensures status { result ≡ Status.WriteFault }
    ensures noted { Says E.Sink (change err.old err.new) write_line }
{
    let _ = put_text(err, b"cannot write\n");
    Status::WriteFault
}

// The program halted with this face.
fn halt<S: Sink, E: Sink>(boot: &Boot, face: Face, out: &mut S, err: &mut E) -> Status
    requires { FaceIsNamed boot.now.names face }
    ensures reports { Reports S.Sink E.Sink (change out.old out.new) (change err.old err.new) (printed (value_line boot.now.last (shown_text (shown_of boot.now.names face)))) result }
    ensures taken { IfServed result (HasTakenAll S.Sink (change out.old out.new)) }
{
    match put_face(boot, face, out) {
        Ok(()) => Status::Done,
        Err(_) => unwritten(err),
    }
}

fn status_of_full(stack: bool) -> Status
    ensures { result ≡ full_status stack }
{
    if stack {
        Status::StackFull
    } else {
        Status::HeapFull
    }
}

/// Runs a loaded program for at most so many instructions, and reports how it ended.
pub fn finish<S: Sink, E: Sink>(boot: &mut Boot, steps: u64, out: &mut S, err: &mut E) -> Status
    ensures reports { Reports S.Sink E.Sink (change out.old out.new) (change err.old err.new) (answer_on boot.old steps) result }
    ensures taken { IfServed result (HasTakenAll S.Sink (change out.old out.new)) }
{
    match run(boot, steps, out) {
        End::Sink => unwritten(err),
        End::Done(face) => halt(boot, face, out, err),
        End::Fault(fault) => {
            let _ = put_fault(err, fault);
            Status::SourceFault
        }
        End::Full { stack, asked, left } => {
            let _ = put_full(err, stack, asked, left);
            status_of_full(stack)
        }
        End::Steps => {
            let _ = put_limit(err, steps);
            Status::StepLimit
        }
        End::Stop { why, at } => {
            let _ = put_stop(err, why, at);
            Status::MachineStop
        }
    }
}

/// Puts a text, and reports whether it was put.
pub fn print<S: Sink, E: Sink>(text: &[u8], out: &mut S, err: &mut E) -> Status
    ensures reports { Reports S.Sink E.Sink (change out.old out.new) (change err.old err.new) (printed text.now) result }
    ensures taken { IfServed result (HasTakenAll S.Sink (change out.old out.new)) }
{
    match put_text(out, text) {
        Ok(()) => Status::Done,
        Err(_) => unwritten(err),
    }
}

/// Puts the line of a text's counts, and reports whether it was put.
pub fn print_counts<S: Sink, E: Sink>(counts: Counts, out: &mut S, err: &mut E) -> Status
    ensures reports { Reports S.Sink E.Sink (change out.old out.new) (change err.old err.new) (printed (counts_line counts.nodes counts.weight)) result }
    ensures taken { IfServed result (HasTakenAll S.Sink (change out.old out.new)) }
{
    match put_counts(out, counts.nodes, counts.weight) {
        Ok(()) => Status::Done,
        Err(_) => unwritten(err),
    }
}
