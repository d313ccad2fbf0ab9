// All things, written.
ghost use Rattle.std.specs.Prelude.{◌≡◌, ◌++◌, OnOk};
ghost use Rattle.t_prim.specs.Values.{Literal, PrintName};
ghost use Rattle.static_tables.specs.Tables.{bytes_of};
ghost use Rattle.static_words.specs.Words.{text_words};

use crate::texts::push_text;
use frame_ir::Frames;
use t_base::{Memory, Name};
use word_ir::StaticWord;

/// The words of a string literal; of none where it isn't there.
pub fn push_literal(frames: &Frames, k: u32, words: &mut Vec<StaticWord>) -> Result<(), Memory>
    ensures { OnOk result (words.new.items ≡ words.old.items ++ text_words (bytes_of frames.now.shared (Literal k))) }
{
    match frames.shared.strings.get(k as usize) {
        None => push_text(&[], words),
        Some(bytes) => push_text(bytes.as_slice(), words),
    }
}

/// The words of a print name; of none where it isn't there.
pub fn push_print_name(frames: &Frames, n: u32, words: &mut Vec<StaticWord>) -> Result<(), Memory>
    ensures { OnOk result (words.new.items ≡ words.old.items ++ text_words (bytes_of frames.now.shared (PrintName n))) }
{
    if n < frames.shared.names.count() {
        push_text(frames.shared.names.text(Name(n)), words)
    } else {
        push_text(&[], words)
    }
}
