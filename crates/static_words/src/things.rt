// The words of things.
ghost use Rattle.std.specs.Prelude.{◌≡◌, ◌++◌, true, OnOk};
ghost use Rattle.t_prim.specs.Operands.{in_range};
ghost use Rattle.tagged_words.specs.Tags.{fixnum_word};
ghost use Rattle.static_words.specs.Words.{closure_words, builtin_words, symbol_words, const_word, pair_words};

use crate::texts::push_text;
use frame_ir::Frames;
use operand_drafts::{number_of, word_at};
use static_names::Thing;
use static_tables::Statics;
use t_base::{Const, Memory, Prim};
use word_ir::StaticWord;

/// The blocks of words that enter the codes of closures and of methods, by the places of these, and of builtins, by their numbers.
#[derive(Drop)]
pub struct EntryBlocks {
    pub closures: Vec<u32>,
    pub methods: Vec<u32>,
    pub builtins: Vec<u32>,
}

fn push_closure(entries: &EntryBlocks, k: u32, words: &mut Vec<StaticWord>) -> Result<(), Memory>
    ensures { OnOk result (words.new.items ≡ words.old.items ++ closure_words entries.now k) }
{
    words.push(StaticWord::Word(0x1D))?;
    words.push(StaticWord::Code(word_at(entries.closures.as_slice(), k)))?;
    words.push(StaticWord::Word(0))?;
    words.push(StaticWord::Word(0))?;
    Ok(())
}

fn push_builtin(entries: &EntryBlocks, p: Prim, words: &mut Vec<StaticWord>) -> Result<(), Memory>
    ensures { OnOk result (words.new.items ≡ words.old.items ++ builtin_words entries.now p) }
{
    words.push(StaticWord::Word(0x29))?;
    words.push(StaticWord::Code(word_at(entries.builtins.as_slice(), number_of(p))))?;
    Ok(())
}

fn is_fixnum(x: i32) -> bool
    ensures { result ≡ in_range x }
{
    -536_870_912 <= x && x < 536_870_912
}

fn fixnum_word(x: i32) -> u32
    requires { in_range x ≡ true }
    ensures { result ≡ fixnum_word x }
{
    (x * 4).cast_unsigned()
}

/// The word of a constant, 0 where it has none.
fn const_word(statics: &Statics, c: Const) -> u32
    ensures { result ≡ const_word statics.now c }
{
    match c {
        Const::Fix(x) => { if is_fixnum(x) { fixnum_word(x) } else { 0 } }
        Const::Char(code) => {
            if code < 128 {
                256 * u32::from(code) + 1
            } else {
                0
            }
        }
        Const::Nil => 5,
        Const::True => 9,
        Const::Sym(name) => statics.word(Thing::Symbol(name.0)),
        Const::Str(k) => statics.word(Thing::Literal(k)),
        Const::Pair(k) => statics.word(Thing::Pair(k)),
    }
}

fn push_symbol(
    statics: &Statics,
    listed: &[u32],
    n: u32,
    words: &mut Vec<StaticWord>,
) -> Result<(), Memory>
    ensures { OnOk result (words.new.items ≡ words.old.items ++ symbol_words statics.now listed.now n) }
{
    let Some(place) = word_at(listed, n).checked_mul(4) else {
        return Err(Memory);
    };
    words.push(StaticWord::Word(0x19))?;
    words.push(StaticWord::Word(place))?;
    words.push(StaticWord::Word(statics.word(Thing::PrintName(n))))?;
    words.push(StaticWord::Word(0))?;
    Ok(())
}

fn push_both(
    statics: &Statics,
    pair: (Const, Const),
    words: &mut Vec<StaticWord>,
) -> Result<(), Memory>
    ensures { OnOk result (words.new.items ≡ words.old.items ++ pair_words statics.now pair) }
{
    words.push(StaticWord::Word(const_word(statics, pair.0)))?;
    words.push(StaticWord::Word(const_word(statics, pair.1)))?;
    Ok(())
}
