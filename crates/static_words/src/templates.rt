// The words of templates and operations.
ghost use Rattle.std.specs.Prelude.{◌≡◌, ◌++◌, [], OnOk};
ghost use Rattle.std.specs.List.{flat_map};
ghost use Rattle.std.specs.Option.{option_map_or};
ghost use Rattle.frame_ir.specs.Calls.{methods_of};
ghost use Rattle.static_words.specs.Words.{default_at, operation_words, method_words, methods_words};

use crate::EntryBlocks;
use crate::texts::pad;
use frame_ir::Template;
use operand_drafts::word_at;
use static_names::Thing;
use static_tables::Statics;
use t_base::Memory;
use word_ir::StaticWord;

/// The word of an operation's default, 0 behind the end.
fn default_at(defaults: &[StaticWord], o: u32) -> StaticWord
    ensures { result ≡ default_at defaults.now o }
{
    match defaults.get(o as usize) {
        None => StaticWord::Word(0),
        Some(word) => *word,
    }
}

/// The words of an operation.
pub(crate) fn push_operation(
    defaults: &[StaticWord],
    o: u32,
    words: &mut Vec<StaticWord>,
) -> Result<(), Memory>
    ensures { OnOk result (words.new.items ≡ words.old.items ++ operation_words defaults.now o) }
{
    let Some(number) = o.checked_mul(4) else {
        return Err(Memory);
    };
    words.push(StaticWord::Word(0x25))?;
    words.push(StaticWord::Word(number))?;
    words.push(default_at(defaults, o))?;
    words.push(StaticWord::Word(0))?;
    Ok(())
}

fn push_method(
    statics: &Statics,
    entries: &EntryBlocks,
    method: (u32, u32),
    words: &mut Vec<StaticWord>,
) -> Result<(), Memory>
    ensures { OnOk result (words.new.items ≡ words.old.items ++ method_words statics.now entries.now method) }
{
    words.push(StaticWord::Word(statics.word(Thing::Operation(method.0))))?;
    words.push(StaticWord::Code(word_at(entries.methods.as_slice(), method.1)))?;
    Ok(())
}

fn push_methods(
    statics: &Statics,
    entries: &EntryBlocks,
    ops: &[u32],
    codes: &[u32],
    words: &mut Vec<StaticWord>,
) -> Result<(), Memory>
    ensures { OnOk result (words.new.items ≡ words.old.items ++ flat_map (method_words statics.now entries.now) (methods_of ops.now codes.now)) }
{
    let mut i = 0;
    while i < ops.len() && i < codes.len() {
        push_method(statics, entries, (ops[i], codes[i]), words)?;
        i += 1;
    }
    Ok(())
}

/// The methods of a template, and a word that is 0 behind them. The only error is the want of memory.
pub(crate) fn push_template(
    statics: &Statics,
    entries: &EntryBlocks,
    template: &Template,
    words: &mut Vec<StaticWord>,
) -> Result<(), Memory>
    ensures { OnOk result (words.new.items ≡ words.old.items ++ methods_words statics.now entries.now (methods_of template.now.ops template.now.codes)) }
{
    let start = words.len();
    let ops = template.ops.as_slice();
    let codes = template.codes.as_slice();
    push_methods(statics, entries, ops, codes, words)?;
    words.push(StaticWord::Word(0))?;
    let count = words.len() - start;
    pad(words, count)?;
    Ok(())
}
