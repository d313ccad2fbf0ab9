// A table of words by numbers, 0 where none was put.
ghost use Rattle.std.specs.Prelude.{◌≡◌, ℕ, ◌<◌, ◌==◌, length, if◌then◌else◌, OnOk};
ghost use Rattle.operand_drafts.specs.Places.{word_at};
ghost use Rattle.static_names.specs.Named.{fixed_of};
ghost use Rattle.static_tables.specs.Tables.{index_of, tag_for};

use operand_drafts::number_of;
use static_names::Thing;
use t_base::Memory;

/// What stands at a place, 0 behind the end.
pub(crate) fn word_at(table: &[u32], at: usize) -> u32
    ensures { result ≡ word_at table.now at }
{
    match table.get(at) {
        None => 0,
        Some(word) => *word,
    }
}

/// Makes room for the word at a place.
fn grow(table: &mut Vec<u32>, at: usize) -> Result<(), Memory>
    ensures room { OnOk result (at < length table.new.items) }
    ensures same { OnOk result ((m : ℕ) → word_at table.new.items m ≡ word_at table.old.items m) }
{
    while table.len() <= at {
        table.push(0)?;
    }
    Ok(())
}

/// Puts a word at a place.
pub(crate) fn put(table: &mut Vec<u32>, at: usize, word: u32) -> Result<(), Memory>
    ensures { OnOk result ((m : ℕ) → word_at table.new.items m ≡ (if at == m then word else word_at table.old.items m)) }
{
    grow(table, at)?;
    table[at] = word;
    Ok(())
}

/// The place of a thing in the table of all.
pub(crate) fn index_of(thing: Thing) -> usize
    ensures { result ≡ index_of (fixed_of thing) }
{
    match thing {
        Thing::Closure(k) => 8 * k as usize,
        Thing::Builtin(p) => 8 * number_of(p) as usize + 1,
        Thing::Operation(o) => 8 * o as usize + 2,
        Thing::Literal(k) => 8 * k as usize + 3,
        Thing::PrintName(n) => 8 * n as usize + 4,
        Thing::Symbol(n) => 8 * n as usize + 5,
        Thing::Pair(k) => 8 * k as usize + 6,
        Thing::Template(t) => 8 * t as usize + 7,
    }
}

/// What the word of a thing is above its address.
pub(crate) fn tag_for(thing: Thing) -> u32
    ensures { result ≡ tag_for (fixed_of thing) }
{
    match thing {
        Thing::Pair(_) => 3,
        Thing::Template(_) => 0,
        Thing::Closure(_)
        | Thing::Builtin(_)
        | Thing::Operation(_)
        | Thing::Literal(_)
        | Thing::PrintName(_)
        | Thing::Symbol(_) => 2,
    }
}
