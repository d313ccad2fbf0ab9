//! The commands, each over the folder and the sinks that it needs.

ghost use Rattle.std.specs.Prelude.{◌≡◌, ◌∷◌, []};
ghost use Rattle.orbit_cli.specs.Changes.{change, AsksFor, HasServed, HasTakenAll};
ghost use Rattle.orbit_cli.specs.Command.{AreSizes};
ghost use Rattle.orbit_cli.specs.Outcome.{IfServed, CompileOutcome, CheckOutcome, RunOutcome, ListOutcome, GoOutcome};

use crate::image::{fetch_listing, load_image};
use crate::prepare::{compile_and_keep, fetch_counts, keep, prepare};
use crate::refusal::refuse;
use crate::report::{finish, print, print_counts};
use crate::status::Status;
use crate::words::Bounds;
use std::alloc::Global;
use t_ports::ports::{Folder, Sink};

/// Compiles a text and keeps its image.
pub fn compile_text<F: Folder, E: Sink>(
    alloc: Global,
    src: &str,
    img: &str,
    folder: &mut F,
    err: &mut E,
) -> Status
    ensures outcome { CompileOutcome F.Folder E.Sink (change folder.old folder.new) (change err.old err.new) src.now img.now result }
    ensures asks { AsksFor F.Folder (change folder.old folder.new) (src.now ∷ []) }
    ensures served { IfServed result (HasServed F.Folder (change folder.old folder.new)) }
{
    match compile_and_keep(alloc, src, img, folder) {
        Ok(()) => Status::Done,
        Err(refusal) => refuse(src, refusal, err),
    }
}

/// Compiles a text, keeps its image and runs it.
pub fn compile_and_run<F: Folder, S: Sink, E: Sink>(
    alloc: Global,
    src: &str,
    img: &str,
    bounds: Bounds,
    folder: &mut F,
    out: &mut S,
    err: &mut E,
) -> Status
    requires { AreSizes bounds.sizes }
    ensures outcome { GoOutcome F.Folder S.Sink E.Sink (change folder.old folder.new) (change out.old out.new) (change err.old err.new) src.now img.now bounds result }
    ensures asks { AsksFor F.Folder (change folder.old folder.new) (src.now ∷ []) }
    ensures served { IfServed result (HasServed F.Folder (change folder.old folder.new)) }
    ensures taken { IfServed result (HasTakenAll S.Sink (change out.old out.new)) }
{
    let ready = match prepare(alloc, src, bounds.sizes, folder) {
        Ok(ready) => ready,
        Err(refusal) => return refuse(src, refusal, err),
    };
    let mut boot = ready.boot;
    match keep(alloc, img, &ready.bytes, folder) {
        Ok(()) => finish(&mut boot, bounds.steps, out, err),
        Err(refusal) => refuse(src, refusal, err),
    }
}

/// Checks a text and puts its counts.
pub fn check<F: Folder, S: Sink, E: Sink>(
    alloc: Global,
    src: &str,
    folder: &mut F,
    out: &mut S,
    err: &mut E,
) -> Status
    ensures outcome { CheckOutcome F.Folder S.Sink E.Sink (change folder.old folder.new) (change out.old out.new) (change err.old err.new) src.now result }
    ensures asks { AsksFor F.Folder (change folder.old folder.new) (src.now ∷ []) }
    ensures served { IfServed result (HasServed F.Folder (change folder.old folder.new)) }
    ensures taken { IfServed result (HasTakenAll S.Sink (change out.old out.new)) }
{
    match fetch_counts(alloc, src, folder) {
        Ok(counts) => print_counts(counts, out, err),
        Err(refusal) => refuse(src, refusal, err),
    }
}

/// Runs an image.
pub fn run_image<F: Folder, S: Sink, E: Sink>(
    alloc: Global,
    img: &str,
    bounds: Bounds,
    folder: &mut F,
    out: &mut S,
    err: &mut E,
) -> Status
    requires { AreSizes bounds.sizes }
    ensures outcome { RunOutcome F.Folder S.Sink E.Sink (change folder.old folder.new) (change out.old out.new) (change err.old err.new) img.now bounds result }
    ensures asks { AsksFor F.Folder (change folder.old folder.new) (img.now ∷ []) }
    ensures served { IfServed result (HasServed F.Folder (change folder.old folder.new)) }
    ensures taken { IfServed result (HasTakenAll S.Sink (change out.old out.new)) }
{
    match load_image(alloc, img, bounds.sizes, folder) {
        Ok(loaded) => {
            let mut boot = loaded;
            finish(&mut boot, bounds.steps, out, err)
        }
        Err(refusal) => refuse(img, refusal, err),
    }
}

/// Lists an image.
pub fn list_image<F: Folder, S: Sink, E: Sink>(
    alloc: Global,
    img: &str,
    folder: &mut F,
    out: &mut S,
    err: &mut E,
) -> Status
    ensures outcome { ListOutcome F.Folder S.Sink E.Sink (change folder.old folder.new) (change out.old out.new) (change err.old err.new) img.now result }
    ensures asks { AsksFor F.Folder (change folder.old folder.new) (img.now ∷ []) }
    ensures served { IfServed result (HasServed F.Folder (change folder.old folder.new)) }
    ensures taken { IfServed result (HasTakenAll S.Sink (change out.old out.new)) }
{
    match fetch_listing(alloc, img, folder) {
        Ok(text) => print(&text, out, err),
        Err(refusal) => refuse(img, refusal, err),
    }
}
