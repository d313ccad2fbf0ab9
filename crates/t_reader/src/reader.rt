//! From tokens to the data of a text.

ghost use Rattle.std.specs.Prelude.{List, ℕ, ◌≡◌, ◌<◌, ◌≤◌, ◌+◌, ◌*◌, ◌^◌, ◌-◌, ◌⊎◌, [], length, vec_len, slice_range, codes, fold, OnOk, IfOk, IfErr};
ghost use Rattle.t_base.specs.declared.basics.Span.{Span};
ghost use Rattle.t_reader.specs.Grammar.{FirstFault, Before, Reads, Tree, IsSound, room, datum_kind, open_kind, end_fault, fault_of};
ghost use Rattle.t_reader.specs.Steps.{step};
ghost use Rattle.t_reader.specs.Unit.{IsUnitOf, IsWhole, symbols_of};
ghost use Rattle.t_base.specs.Texts.{with_text};
ghost use Rattle.t_reader.specs.declared.fault.ReadKind.{ReadKind};
ghost use Rattle.t_reader.specs.Build.{weight, bulk, names_with, IsWell, Reached, Answers, datum_fault_of};
ghost use Rattle.t_reader.specs.Tokens.{MovesBy, WordFits, IsLexeme};

use crate::build::{Build, Frame, Tail};
use crate::fault::{ReadFault, ReadKind};
use crate::lexer::token_at;
use crate::token::{Atom, Token, Word};
use crate::unit::Unit;
use std::alloc::Global;
use t_base::Span;

/// How many lists and quote marks may be open.
const MAX_DEPTH: usize = 400;

fn fault(kind: ReadKind, span: Span) -> ReadFault
    ensures { result ≡ ReadFault.Fault kind span }
{
    ReadFault::Fault { kind, span }
}

/// The fault of a token that begins a datum.
fn datum_fault(frame: Option<Frame>) -> Option<ReadKind>
    ensures { result ≡ datum_fault_of frame }
{
    match frame {
        Some(
            Frame::List {
                tail: Tail::Datum,
                ..
            },
        ) => Some(ReadKind::LoneDot),
        _ => None,
    }
}

/// The fault of a token that opens a list or is a quote mark.
fn open_fault(frame: Option<Frame>, depth: usize) -> Option<ReadKind>
    ensures { (b : Before) → datum_kind b ≡ datum_fault_of frame → depth + room b ≡ 400 → result ≡ open_kind b }
{
    match datum_fault(frame) {
        Some(kind) => Some(kind),
        None => {
            if depth < MAX_DEPTH {
                None
            } else {
                Some(ReadKind::TooDeep)
            }
        }
    }
}

fn add_end(build: &Build) -> Result<(), ReadFault>
    ensures gives { (text : List ℕ) (b : Before) → Reached text b build.now → Answers (end_fault b) (Reached text b build.now) result }
{
    match build.frames.last() {
        None => Ok(()),
        Some(Frame::List { open, .. }) => Err(fault(ReadKind::Unclosed, *open)),
        Some(Frame::Quote { mark, .. }) => Err(fault(ReadKind::Unclosed, *mark)),
    }
}

fn add_close(build: &mut Build, span: Span) -> Result<(), ReadFault>
    requires { weight build.old ≤ 2 ^ 23 }
    ensures weight { OnOk result (weight build.new ≤ weight build.old + 5) }
    ensures names { OnOk result (build.new.names ≡ build.old.names) }
    ensures bulk { OnOk result (bulk build.new ≤ bulk build.old) }
    ensures well { IsWell [] build.old → OnOk result (IsWell [] build.new) }
    ensures gives { (text : List ℕ) (b : Before) → Reached text b build.old → IsSound b → Answers (fault_of b Word.Close span) (Reached text (step b Word.Close span) build.new) result }
{
    match build.frames.last().copied() {
        Some(Frame::List { open, first, tail }) => match tail {
            Tail::Dot => Err(fault(ReadKind::LoneDot, span)),
            _ => build.close(open, span, first, tail),
        },
        Some(Frame::Quote { .. }) => Err(fault(ReadKind::ExtraClose, span)),
        None => Err(fault(ReadKind::ExtraClose, span)),
    }
}

fn add_dot(build: &mut Build, span: Span) -> Result<(), ReadFault>
    ensures weight { OnOk result (weight build.new ≤ weight build.old + 5) }
    ensures names { OnOk result (build.new.names ≡ build.old.names) }
    ensures bulk { OnOk result (bulk build.new ≤ bulk build.old) }
    ensures well { IsWell [] build.old → OnOk result (IsWell [] build.new) }
    ensures gives { (text : List ℕ) (b : Before) → Reached text b build.old → Answers (fault_of b Word.Dot span) (Reached text (step b Word.Dot span) build.new) result }
{
    match build.list_for_dot() {
        Some((open, first)) => build.dot(open, first),
        None => Err(fault(ReadKind::LoneDot, span)),
    }
}

fn add_open(build: &mut Build, span: Span) -> Result<(), ReadFault>
    requires { weight build.old + 5 ≤ 2 ^ 23 }
    ensures gives { (text : List ℕ) (b : Before) → Reached text b build.old → IsSound b → Answers (fault_of b Word.Open span) (Reached text (step b Word.Open span) build.new) result }
    ensures weight { OnOk result (weight build.new ≤ weight build.old + 5) }
    ensures names { OnOk result (build.new.names ≡ build.old.names) }
    ensures bulk { OnOk result (bulk build.new ≤ bulk build.old) }
    ensures well { IsWell [] build.old → OnOk result (IsWell [] build.new) }
{
    match open_fault(build.frames.last().copied(), build.frames.len()) {
        Some(kind) => Err(fault(kind, span)),
        None => build.open(span),
    }
}

fn add_quote(build: &mut Build, span: Span) -> Result<(), ReadFault>
    requires { weight build.old + 5 ≤ 2 ^ 23 }
    ensures gives { (text : List ℕ) (b : Before) → Reached text b build.old → IsSound b → Answers (fault_of b Word.Quote span) (Reached text (step b Word.Quote span) build.new) result }
    ensures weight { OnOk result (weight build.new ≤ weight build.old + 5) }
    ensures names { OnOk result (build.new.names ≡ with_text build.old.names (codes "quote")) }
    ensures bulk { OnOk result (bulk build.new ≤ bulk build.old) }
    ensures well { IsWell [] build.old → OnOk result (IsWell [] build.new) }
{
    match open_fault(build.frames.last().copied(), build.frames.len()) {
        Some(kind) => Err(fault(kind, span)),
        None => build.quote(span),
    }
}

fn add_atom(build: &mut Build, text: &[u8], atom: Atom, span: Span) -> Result<(), ReadFault>
    requires room { weight build.old + 5 ≤ 2 ^ 23 }
    requires start { span.start ≤ span.end }
    requires end { span.end ≤ length text.now }
    ensures weight { OnOk result (weight build.new ≤ weight build.old + 5) }
    ensures names { OnOk result (build.new.names ≡ names_with build.old.names atom (slice_range text.now span.start span.end)) }
    ensures bulk { OnOk result (bulk build.new ≤ bulk build.old + (span.end - span.start)) }
    ensures well { IsWell [] build.old → IsLexeme atom (slice_range text.now span.start span.end) → OnOk result (IsWell [] build.new) }
    ensures gives { (b : Before) → Reached text.now b build.old → IsSound b → Answers (fault_of b (Word.Atom atom) span) (Reached text.now (step b (Word.Atom atom) span) build.new) result }
{
    match datum_fault(build.frames.last().copied()) {
        Some(kind) => Err(fault(kind, span)),
        None => {
            let bytes = &text[span.start as usize..span.end as usize];
            build.add_atom(atom, span, bytes)
        }
    }
}

fn add_token(build: &mut Build, text: &[u8], token: Token) -> Result<(), ReadFault>
    requires room { weight build.old + 5 ≤ 2 ^ 23 }
    requires in_text { MovesBy token.word 0 (length text.now) token.span.start token.span.end }
    ensures weight { OnOk result (weight build.new ≤ weight build.old + 5) }
    ensures good { OnOk result ((k : ReadKind) → token.word ≡ Word.Bad k → ⊥) }
    ensures ends { token.word ≡ Word.End → build.new ≡ build.old }
    ensures names { OnOk result (build.new.names ≡ fold with_text build.old.names (symbols_of text.now token)) }
    ensures bulk { OnOk result (bulk build.new ≤ bulk build.old + (token.span.end - token.span.start)) }
    ensures well { IsWell [] build.old → WordFits token.word (slice_range text.now token.span.start token.span.end) → OnOk result (IsWell [] build.new) }
    ensures gives { (b : Before) → Reached text.now b build.old → IsSound b → Answers (fault_of b token.word token.span) (Reached text.now (step b token.word token.span) build.new) result }
{
    let span = token.span;
    match token.word {
        Word::Open => add_open(build, span),
        Word::Close => add_close(build, span),
        Word::Quote => add_quote(build, span),
        Word::Dot => add_dot(build, span),
        Word::Atom(atom) => add_atom(build, text, atom, span),
        Word::Bad(kind) => Err(fault(kind, span)),
        Word::End => add_end(build),
    }
}

fn read_text(alloc: Global, text: &[u8]) -> Result<Unit, ReadFault>
    requires { length text.now ≤ 2 ^ 20 }
    ensures data { IfOk result (λ u. IsUnitOf text.now u) }
    ensures whole { IfOk result (λ u. IsWhole u) }
    ensures fault { (kind : ReadKind) (span : Span) → result ≡ Err (ReadFault.Fault kind span) → FirstFault text.now (ReadFault.Fault kind span) }
{
    let mut build = Build::new(alloc)?;
    let mut from = 0usize;
    'tokens: loop {
        let token = token_at(text, from);
        add_token(&mut build, text, token)?;
        match token.word {
            Word::End => {
                let Build {
                    names,
                    nodes,
                    items,
                    ..
                } = build;
                return Ok(Unit {
                    names,
                    nodes,
                    forms: items,
                });
            }
            _ => from = token.span.end as usize,
        }
    }
}

/// The data of a text of at most 2^20 bytes, or its first fault.
///
/// `Ok` is the reading of the text, a whole unit. `Err(Fault)` is the first fault of the text, and comes exactly where
/// there is one. `Err(Memory)` is the want of memory; no clause says when it comes.
pub fn read_unit(alloc: Global, text: &[u8]) -> Result<Unit, ReadFault>
    requires { length text.now ≤ 2 ^ 20 }
    ensures data { IfOk result (λ u. IsUnitOf text.now u) }
    ensures whole { IfOk result (λ u. IsWhole u) }
    ensures fault { (kind : ReadKind) (span : Span) → result ≡ Err (ReadFault.Fault kind span) → FirstFault text.now (ReadFault.Fault kind span) }
    ensures refused { (f : ReadFault) → FirstFault text.now f → (result ≡ Err f) ⊎ (result ≡ Err ReadFault.Memory) }
    ensures accepted { (trees : List Tree) → Reads text.now trees → IfErr result (λ e. e ≡ ReadFault.Memory) }
{
    read_text(alloc, text)
}
