// The constant that a datum is. No new variable or builtin thing stands in a datum, nor a reserved word that isn't among the names:
// there the answer is want of memory.
ghost use Rattle.std.specs.Prelude.{◌≡◌, ◌++◌, ◌∷◌, [], List, ℕ, length, slice_get, Some, IfOk, OnOk};
ghost use Rattle.t_base.specs.declared.shared_parts.Const.TheVariants as constants;
ghost use Rattle.t_core.specs.Whole.{pair_in};
ghost use Rattle.t_forms.specs.declared.arena.Cell.{Cell as SpecCell};
ghost use Rattle.t_forms.specs.Data.{Datum};
ghost use Rattle.t_forms.specs.Held.{Held};
ghost use Rattle.expansion.specs.Meaning.{IsQuoted};
ghost use Rattle.t_expand.specs.Quoting.{AddsConstants, Quotes, IsConstant, spelling};
ghost use Rattle.expansion.specs.Lists.{Adds};
ghost use Rattle.expansion.specs.Strings.{string_in};
ghost use Rattle.t_expand.specs.Tallies.{AreNamed, AreNamedSoFar};
ghost use Rattle.t_expand.specs.declared.quoted.Quoting.TheVariants as quotings;

use std::alloc::Global;
use t_base::{Bytes, Const, Memory, Name, Names, Shared};
use t_forms::{Form, Forms};
use t_objects::Word;

/// What is next: a datum by its place, or the constant that it is.
#[derive(Clone, Copy)]
pub enum Quoting {
    Datum(u32),
    Made(Const),
}

/// A pair under way: its tail is still to come, or its head is made.
#[derive(Clone, Copy)]
pub enum Half {
    Tail(u32),
    Head(Const),
}

fn spelling_of(word: Word) -> &'static [u8]
    ensures { result.now ≡ spelling word }
{
    match word {
        Word::Quote => b"quote",
        Word::Lambda => b"lambda",
        Word::If => b"if",
        Word::Cond => b"cond",
        Word::And => b"and",
        Word::Or => b"or",
        Word::Case => b"case",
        Word::Block => b"block",
        Word::Let => b"let",
        Word::LetStar => b"let*",
        Word::Labels => b"labels",
        Word::Iterate => b"iterate",
        Word::Do => b"do",
        Word::Set => b"set",
        Word::Lset => b"lset",
        Word::Define => b"define",
        Word::Catch => b"catch",
        Word::Object => b"object",
        Word::DefineOperation => b"define-operation",
        Word::Locative => b"locative",
        Word::Else => b"else",
        Word::Arrow => b"=>",
    }
}

/// The name that spells a reserved word. The names stay.
fn name_of_word(names: &mut Names, word: Word) -> Result<Name, Memory>
    ensures names { OnOk result (names.new ≡ names.old) }
    ensures found { IfOk result (λ name. slice_get names.new name.0 ≡ Some (spelling word)) }
{
    let count = names.count();
    if count == u32::MAX {
        return Err(Memory);
    }
    let name = names.intern(spelling_of(word))?;
    if names.count() != count {
        return Err(Memory);
    }
    Ok(name)
}

fn string(strings: &mut Vec<Bytes>, alloc: Global, bytes: &Bytes) -> Result<Const, Memory>
    ensures strings { OnOk result (Adds strings.old.items strings.new.items) }
    ensures made { IfOk result (λ c. (place : ℕ) × (c ≡ constants.Str place) × (slice_get strings.new.items place ≡ Some bytes.now)) }
    ensures pushed { OnOk result (strings.new.items ≡ strings.old.items ++ bytes.now ∷ []) }
    ensures last { IfOk result (λ c. c ≡ constants.Str (length strings.old.items)) }
{
    let place = strings.len();
    if place >= u32::MAX as usize {
        return Err(Memory);
    }
    strings.push(bytes.copy(alloc)?)?;
    Ok(Const::Str(place as u32))
}

fn pair(pairs: &mut Vec<(Const, Const)>, head: Const, tail: Const) -> Result<Const, Memory>
    ensures pairs { OnOk result (Adds pairs.old.items pairs.new.items) }
    ensures made { IfOk result (λ c. (place : ℕ) × (c ≡ constants.Pair place) × (slice_get pairs.new.items place ≡ Some (head, tail))) }
    ensures pushed { OnOk result (pairs.new.items ≡ pairs.old.items ++ (head, tail) ∷ []) }
    ensures last { IfOk result (λ c. c ≡ constants.Pair (length pairs.old.items)) }
{
    let place = pairs.len();
    if place >= u32::MAX as usize {
        return Err(Memory);
    }
    pairs.push((head, tail))?;
    Ok(Const::Pair(place as u32))
}

fn atom(alloc: Global, form: &Form, shared: &mut Shared) -> Result<Const, Memory>
    ensures adds { OnOk result (AddsConstants shared.old shared.new) }
    ensures constant { IfOk result (IsConstant shared.new form.now) }
    ensures named { (strings pairs : List ℕ) → AreNamed strings pairs shared.old → IfOk result (λ c. AreNamed (strings ++ string_in c) (pairs ++ pair_in c) shared.new) }
{
    match form {
        Form::Fix(n) => Ok(Const::Fix(*n)),
        Form::Char(c) => Ok(Const::Char(*c)),
        Form::Nil => Ok(Const::Nil),
        Form::True => Ok(Const::True),
        Form::Str(text) => {
            let constant = string(&mut shared.strings, alloc, text.bytes())?;
            Ok(constant)
        }
        Form::Sym(name) => Ok(Const::Sym(*name)),
        Form::Word(word) => {
            let name = name_of_word(&mut shared.names, *word)?;
            Ok(Const::Sym(name))
        }
        _ => Err(Memory),
    }
}

/// The datum at a place: its head is next, or the constant is there.
fn visit(
    alloc: Global,
    forms: &Forms,
    shared: &mut Shared,
    waiting: &mut Vec<Half>,
    at: u32,
) -> Result<Quoting, Memory>
    ensures adds { OnOk result (AddsConstants shared.old shared.new) }
    ensures quotes { (root : Datum) → Quotes shared.old forms.now waiting.old.items (quotings.Datum at) root → IfOk result (λ next. Quotes shared.new forms.now waiting.new.items next root) }
    ensures named { (strings pairs : List ℕ) → AreNamedSoFar strings pairs waiting.old.items (quotings.Datum at) shared.old → IfOk result (λ next. AreNamedSoFar strings pairs waiting.new.items next shared.new) }
{
    match forms.get(at) {
        None => Err(Memory),
        Some(cell) => match &cell.form {
            Form::Pair { head, tail, .. } => {
                waiting.push(Half::Tail(*tail))?;
                Ok(Quoting::Datum(*head))
            }
            form => {
                let constant = atom(alloc, form, shared)?;
                Ok(Quoting::Made(constant))
            }
        },
    }
}

/// Goes on behind a constant that is half of a pair.
fn deliver(
    shared: &mut Shared,
    waiting: &mut Vec<Half>,
    half: Half,
    constant: Const,
) -> Result<Quoting, Memory>
    ensures adds { OnOk result (AddsConstants shared.old shared.new) }
    ensures quotes { (cells : List SpecCell) (root : Datum) → Quotes shared.old cells (waiting.old.items ++ half ∷ []) (quotings.Made constant) root → IfOk result (λ next. Quotes shared.new cells waiting.new.items next root) }
    ensures named { (strings pairs : List ℕ) → AreNamedSoFar strings pairs (waiting.old.items ++ half ∷ []) (quotings.Made constant) shared.old → IfOk result (λ next. AreNamedSoFar strings pairs waiting.new.items next shared.new) }
{
    match half {
        Half::Tail(next) => {
            waiting.push(Half::Head(constant))?;
            Ok(Quoting::Datum(next))
        }
        Half::Head(head) => {
            let made = pair(&mut shared.pairs, head, constant)?;
            Ok(Quoting::Made(made))
        }
    }
}

/// The constant that the datum at a place is. Strings and pairs are only added.
pub fn constant_of(
    alloc: Global,
    forms: &Forms,
    shared: &mut Shared,
    key: u32,
) -> Result<Const, Memory>
    ensures adds { OnOk result (AddsConstants shared.old shared.new) }
    ensures constant { (d : Datum) → Held shared.old.names forms.now key d → IfOk result (IsQuoted shared.new d) }
    ensures named { (strings pairs : List ℕ) → AreNamed strings pairs shared.old → IfOk result (λ c. AreNamed (strings ++ string_in c) (pairs ++ pair_in c) shared.new) }
{
    let mut waiting = Vec::new(alloc);
    let mut next = Quoting::Datum(key);
    'data: for _ in 0..u64::MAX {
        next = match next {
            Quoting::Datum(at) => visit(alloc, forms, shared, &mut waiting, at)?,
            Quoting::Made(constant) => match waiting.pop() {
                None => return Ok(constant),
                Some(half) => deliver(shared, &mut waiting, half, constant)?,
            },
        };
    }
    Err(Memory)
}
