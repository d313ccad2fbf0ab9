//! From the name of a text to its image: fetched, translated, loaded and kept. And from the name of a text to its counts.

ghost use Rattle.std.specs.Prelude.{◌≡◌, ◌≤◌, ◌^◌, ◌∷◌, [], ℕ, List, IsTrue, length, IfOk, IfErr, OnOk, OnErr};
ghost use Rattle.t_base.specs.Lines.{line_of, column_of};
ghost use Rattle.image_file.specs.Grammar.{Parts, IsImageOf};
ghost use Rattle.m68020_step.specs.Boot.{is_size};
ghost use Rattle.orbit_build.specs.Faithful.{IsUnbuilt, IsBuilt, Faithful};
ghost use Rattle.orbit_cli.specs.Changes.{change, AsksFor, Gives, HasServed, IsUnchanged, Keeps};
ghost use Rattle.orbit_cli.specs.Command.{AreSizes};
ghost use Rattle.orbit_cli.specs.Outcome.{most_text, IsCompiled};
ghost use Rattle.orbit_cli.specs.Parts.{refusal_of, TextCause, NoText, CompileCause, CheckCause, KeepCause, IsTranslated, IsProgram, IsCounted, IsFetchedCounts};

use crate::refusal::{Refusal, SourceKind};
use image_file::read_image;
use m68020_step::Sizes;
use orbit_build::{BuildFault, compile, read_core};
use orbit_monitor::{Boot, boot};
use std::alloc::Global;
use t_base::{Memory, Span, place};
use t_core::{limits, weight};
use t_ports::ports::{FetchFault, Folder, KeepFault};

/// Most bytes of a text.
const MAX_TEXT: usize = 0x10_0000;

/// The bytes of an image, and the program that they spell, in the machine.
#[derive(Drop)]
pub struct Ready {
    pub bytes: Vec<u8>,
    pub boot: Boot,
}

/// The nodes of the largest form of a text's core, and the weight of the core.
#[derive(Clone, Copy, Debug, PartialEq, Eq)]
pub struct Counts {
    pub nodes: u32,
    pub weight: u64,
}

fn fetch_text<F: Folder>(alloc: Global, src: &str, folder: &mut F) -> Result<Vec<u8>, Refusal>
    ensures asks { AsksFor F.Folder (change folder.old folder.new) (src.now ∷ []) }
    ensures served { OnOk result (HasServed F.Folder (change folder.old folder.new)) }
    ensures same { IsUnchanged F.Folder (change folder.old folder.new) }
    ensures keeps { F.keep_faults folder.new ≡ F.keep_faults folder.old }
    ensures given { IfOk result (λ text. Gives F.Folder (change folder.old folder.new) most_text src.now text.items) }
    ensures uncompiled { IfErr result (CompileCause F.Folder (change folder.old folder.new) src.now) }
    ensures unchecked { IfErr result (CheckCause F.Folder (change folder.old folder.new) src.now) }
{
    match folder.fetch(alloc, src, MAX_TEXT) {
        Ok(text) => Ok(text),
        Err(FetchFault::Failed) => Err(Refusal::Unread),
        Err(FetchFault::Long { .. }) => Err(Refusal::Long),
        Err(FetchFault::Memory) => Err(Refusal::Memory),
    }
}

// A fault of a text, with its line and column.
fn source_refusal(text: &[u8], kind: SourceKind, span: Span) -> Refusal
    requires { length text.now ≤ 2 ^ 20 }
    ensures { result ≡ Refusal.Source kind (line_of text.now span.start) (column_of text.now span.start) }
{
    let at = span.start.min(text.len() as u32);
    let (line, column) = place(text, at);
    Refusal::Source { kind, line, column }
}

// The refusal that a fault of a build is.
fn refusal_of(text: &[u8], fault: BuildFault) -> Refusal
    requires { length text.now ≤ 2 ^ 20 }
    ensures { result ≡ refusal_of text.now fault }
{
    match fault {
        BuildFault::Read { kind, span } => source_refusal(text, SourceKind::Read(kind), span),
        BuildFault::Syntax { kind, span } => source_refusal(text, SourceKind::Syntax(kind), span),
        BuildFault::Limit(fault) => Refusal::Over(fault),
        BuildFault::Unbuilt => Refusal::Unbuilt,
        BuildFault::Memory => Refusal::Memory,
    }
}

// Makes the image of a text.
fn translate(alloc: Global, text: &[u8]) -> Result<Vec<u8>, Refusal>
    requires { length text.now ≤ 2 ^ 20 }
    ensures faithful { IfOk result (λ bytes. Faithful text.now bytes.items) }
    ensures built { OnOk result (IsBuilt text.now) }
    ensures refused { IfErr result (TextCause IsUnbuilt text.now) }
{
    match compile(alloc, text) {
        Ok(bytes) => Ok(bytes),
        Err(fault) => Err(refusal_of(text, fault)),
    }
}

/// Fetches a text and makes its image.
fn fetch_translated<F: Folder>(alloc: Global, src: &str, folder: &mut F) -> Result<Vec<u8>, Refusal>
    ensures asks { AsksFor F.Folder (change folder.old folder.new) (src.now ∷ []) }
    ensures served { OnOk result (HasServed F.Folder (change folder.old folder.new)) }
    ensures same { IsUnchanged F.Folder (change folder.old folder.new) }
    ensures keeps { F.keep_faults folder.new ≡ F.keep_faults folder.old }
    ensures translated { IfOk result (λ bytes. IsTranslated F.Folder (change folder.old folder.new) src.now bytes.items) }
    ensures refused { IfErr result (CompileCause F.Folder (change folder.old folder.new) src.now) }
{
    let text = fetch_text(alloc, src, folder)?;
    translate(alloc, &text)
}

// The program of an image. Its bytes are those of an image, so that no field of them fails.
fn load(alloc: Global, bytes: &[u8], sizes: Sizes) -> Result<Boot, Memory>
    requires image { (image : Parts) × IsImageOf bytes.now image }
    requires heap { IsTrue (is_size sizes.heap) }
    requires stack { IsTrue (is_size sizes.stack) }
    ensures { IfOk result (λ loaded. IsProgram bytes.now sizes loaded) }
{
    let Ok(image) = read_image(alloc, bytes) else {
        return Err(Memory);
    };
    let loaded = boot(alloc, &image, sizes)?;
    Ok(loaded)
}

/// Fetches a text, makes its image and loads its program.
pub fn prepare<F: Folder>(
    alloc: Global,
    src: &str,
    sizes: Sizes,
    folder: &mut F,
) -> Result<Ready, Refusal>
    requires { AreSizes sizes }
    ensures asks { AsksFor F.Folder (change folder.old folder.new) (src.now ∷ []) }
    ensures served { OnOk result (HasServed F.Folder (change folder.old folder.new)) }
    ensures same { IsUnchanged F.Folder (change folder.old folder.new) }
    ensures keeps { F.keep_faults folder.new ≡ F.keep_faults folder.old }
    ensures translated { IfOk result (λ ready. IsTranslated F.Folder (change folder.old folder.new) src.now ready.bytes.items) }
    ensures loaded { IfOk result (λ ready. IsProgram ready.bytes.items sizes ready.boot) }
    ensures refused { IfErr result (CompileCause F.Folder (change folder.old folder.new) src.now) }
{
    let bytes = fetch_translated(alloc, src, folder)?;
    let boot = load(alloc, &bytes, sizes)?;
    Ok(Ready { bytes, boot })
}

/// Keeps the bytes of an image.
pub fn keep<F: Folder>(
    alloc: Global,
    img: &str,
    bytes: &[u8],
    folder: &mut F,
) -> Result<(), Refusal>
    ensures asks { AsksFor F.Folder (change folder.old folder.new) [] }
    ensures served { OnOk result (HasServed F.Folder (change folder.old folder.new)) }
    ensures kept { OnOk result (Keeps F.Folder (change folder.old folder.new) img.now bytes.now) }
    ensures same { OnErr result (IsUnchanged F.Folder (change folder.old folder.new)) }
    ensures refused { IfErr result (KeepCause F.Folder (change folder.old folder.new)) }
{
    match folder.keep(alloc, img, bytes) {
        Ok(()) => Ok(()),
        Err(KeepFault::Failed) => Err(Refusal::Unkept),
        Err(KeepFault::Memory) => Err(Refusal::Memory),
    }
}

/// Fetches a text, makes its image and keeps it.
pub fn compile_and_keep<F: Folder>(
    alloc: Global,
    src: &str,
    img: &str,
    folder: &mut F,
) -> Result<(), Refusal>
    ensures asks { AsksFor F.Folder (change folder.old folder.new) (src.now ∷ []) }
    ensures served { OnOk result (HasServed F.Folder (change folder.old folder.new)) }
    ensures compiled { OnOk result ((bytes : List ℕ) × IsCompiled F.Folder (change folder.old folder.new) src.now img.now bytes) }
    ensures same { OnErr result (IsUnchanged F.Folder (change folder.old folder.new)) }
    ensures refused { IfErr result (CompileCause F.Folder (change folder.old folder.new) src.now) }
{
    let bytes = fetch_translated(alloc, src, folder)?;
    keep(alloc, img, &bytes, folder)
}

// Counts the core of a text.
fn count(alloc: Global, text: &[u8]) -> Result<Counts, Refusal>
    requires { length text.now ≤ 2 ^ 20 }
    ensures counted { IfOk result (IsCounted text.now) }
    ensures refused { IfErr result (TextCause NoText text.now) }
{
    let unit = match read_core(alloc, text) {
        Ok(unit) => unit,
        Err(fault) => return Err(refusal_of(text, fault)),
    };
    match limits(&unit) {
        Ok(()) => Ok(Counts {
            nodes: unit.shared.size,
            weight: weight(&unit),
        }),
        Err(fault) => Err(Refusal::Over(fault)),
    }
}

/// Fetches a text and counts its core.
pub fn fetch_counts<F: Folder>(alloc: Global, src: &str, folder: &mut F) -> Result<Counts, Refusal>
    ensures asks { AsksFor F.Folder (change folder.old folder.new) (src.now ∷ []) }
    ensures served { OnOk result (HasServed F.Folder (change folder.old folder.new)) }
    ensures same { IsUnchanged F.Folder (change folder.old folder.new) }
    ensures counted { IfOk result (IsFetchedCounts F.Folder (change folder.old folder.new) src.now) }
    ensures refused { IfErr result (CheckCause F.Folder (change folder.old folder.new) src.now) }
{
    let text = fetch_text(alloc, src, folder)?;
    count(alloc, &text)
}
