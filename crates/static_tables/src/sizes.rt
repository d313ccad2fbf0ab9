// How many static words each thing has.
ghost use Rattle.std.specs.Prelude.{◌≡◌, ◌+◌, length, IfOk};
ghost use Rattle.frame_ir.specs.Values.{even};
ghost use Rattle.frame_words.specs.Layouts.{packed};
ghost use Rattle.frame_ir.specs.Calls.{methods_of};
ghost use Rattle.static_names.specs.Named.{fixed_of};
ghost use Rattle.static_names.specs.declared.things.Thing.TheVariants as thing;
ghost use Rattle.static_tables.specs.Tables.{words_of, front_of};

use frame_ir::{Frames, Template};
use static_names::Thing;
use t_base::{Memory, Name};

/// Up to an even count. The only error is the want of memory: no program has so many words.
fn even(words: usize) -> Result<u32, Memory>
    ensures { IfOk result (λ made. made ≡ even words) }
{
    let Ok(words) = u32::try_from(words) else {
        return Err(Memory);
    };
    let Some(made) = words.checked_add(words % 2) else {
        return Err(Memory);
    };
    Ok(made)
}

/// The words of bytes, four a word.
#[tactic(auto, using(crate::proofs::TableLemmas::packed_length))]
fn packed_words(bytes: &[u8]) -> usize
    ensures { result ≡ length (packed bytes.now) }
{
    let count = bytes.len();
    if count % 4 == 0 {
        count / 4
    } else {
        count / 4 + 1
    }
}

fn text_words(bytes: &[u8]) -> Result<u32, Memory>
    ensures { IfOk result (λ words. words ≡ even (2 + length (packed bytes.now))) }
{
    let Some(words) = 2_usize.checked_add(packed_words(bytes)) else {
        return Err(Memory);
    };
    even(words)
}

fn literal_words(frames: &Frames, k: u32) -> Result<u32, Memory>
    ensures { IfOk result (λ words. words ≡ words_of frames.now (fixed_of (thing.Literal k))) }
{
    match frames.shared.strings.get(k as usize) {
        None => Ok(2),
        Some(bytes) => text_words(bytes.as_slice()),
    }
}

fn name_words(frames: &Frames, n: u32) -> Result<u32, Memory>
    ensures { IfOk result (λ words. words ≡ words_of frames.now (fixed_of (thing.PrintName n))) }
{
    if n < frames.shared.names.count() {
        text_words(frames.shared.names.text(Name(n)))
    } else {
        Ok(2)
    }
}

#[tactic(auto, using(crate::proofs::TableLemmas::methods_short, crate::proofs::TableLemmas::methods_long))]
fn method_count(template: &Template) -> usize
    ensures { result ≡ length (methods_of template.now.ops template.now.codes) }
{
    let ops = template.ops.as_slice().len();
    let codes = template.codes.as_slice().len();
    if ops < codes { ops } else { codes }
}

fn template_words(frames: &Frames, t: u32) -> Result<u32, Memory>
    ensures { IfOk result (λ words. words ≡ words_of frames.now (fixed_of (thing.Template t))) }
{
    match frames.templates.get(t as usize) {
        None => Ok(2),
        Some(template) => {
            let Some(words) = method_count(template).checked_mul(2) else {
                return Err(Memory);
            };
            let Some(words) = words.checked_add(1) else {
                return Err(Memory);
            };
            even(words)
        }
    }
}

/// How many words a thing has. The only error is the want of memory.
pub(crate) fn words_of(frames: &Frames, thing: Thing) -> Result<u32, Memory>
    ensures { IfOk result (λ words. words ≡ words_of frames.now (fixed_of thing)) }
{
    match thing {
        Thing::Closure(_) | Thing::Operation(_) | Thing::Symbol(_) => Ok(4),
        Thing::Builtin(_) | Thing::Pair(_) => Ok(2),
        Thing::Literal(k) => literal_words(frames, k),
        Thing::PrintName(n) => name_words(frames, n),
        Thing::Template(t) => template_words(frames, t),
    }
}

/// How many words stand in front of all things. The only error is the want of memory.
pub(crate) fn front_words(frames: &Frames) -> Result<u32, Memory>
    ensures { IfOk result (λ words. words ≡ front_of frames.now) }
{
    let Some(words) = frames.shared.globals.len().checked_add(17) else {
        return Err(Memory);
    };
    even(words)
}
