// The words of strings.
ghost use Rattle.std.specs.Prelude.{◌≡◌, ◌+◌, ◌*◌, ◌<◌, ◌++◌, ◌%◌, map, length, replicate, get_or, IfOk, OnOk};
ghost use Rattle.word_ir.specs.declared.words.StaticWord.TheVariants as first;
ghost use Rattle.frame_words.specs.Layouts.{packed};
ghost use Rattle.static_words.specs.Words.{packed_at, text_words};

use t_base::Memory;
use word_ir::StaticWord;

/// A byte, 0 behind the end.
fn byte_at(bytes: &[u8], at: usize) -> u32
    ensures is { result ≡ get_or bytes.now at 0 }
    ensures small { result < 256 }
{
    match bytes.get(at) {
        None => 0,
        Some(byte) => u32::from(*byte),
    }
}

/// The word of four bytes, with zeros behind the end.
fn packed_at(bytes: &[u8], at: usize) -> u32
    requires { at < length bytes.now }
    ensures { result ≡ packed_at bytes.now at }
{
    byte_at(bytes, at) * 16_777_216
        + byte_at(bytes, at.saturating_add(1)) * 65_536
        + byte_at(bytes, at.saturating_add(2)) * 256
        + byte_at(bytes, at.saturating_add(3))
}

/// The place four bytes on.
fn behind(at: usize) -> Result<usize, Memory>
    ensures { IfOk result (λ next. next ≡ at + 4) }
{
    let Some(next) = at.checked_add(4) else {
        return Err(Memory);
    };
    Ok(next)
}

fn push_packed(bytes: &[u8], words: &mut Vec<StaticWord>) -> Result<(), Memory>
    ensures { OnOk result (words.new.items ≡ words.old.items ++ map first.Word (packed bytes.now)) }
{
    let mut at = 0;
    while at < bytes.len() {
        words.push(StaticWord::Word(packed_at(bytes, at)))?;
        at = behind(at)?;
    }
    Ok(())
}

/// A word that fills up to an even count.
pub(crate) fn pad(words: &mut Vec<StaticWord>, count: usize) -> Result<(), Memory>
    ensures { OnOk result (words.new.items ≡ words.old.items ++ replicate (count % 2) (first.Word 0)) }
{
    if count % 2 == 1 {
        words.push(StaticWord::Word(0))?;
    }
    Ok(())
}

/// A header, four times the length, the bytes, and up to an even count a word that is 0. The only error is the want of memory.
pub(crate) fn push_text(bytes: &[u8], words: &mut Vec<StaticWord>) -> Result<(), Memory>
    ensures { OnOk result (words.new.items ≡ words.old.items ++ text_words bytes.now) }
{
    let Ok(count) = u32::try_from(bytes.len()) else {
        return Err(Memory);
    };
    let Some(length) = count.checked_mul(4) else {
        return Err(Memory);
    };
    let start = words.len();
    words.push(StaticWord::Word(0x15))?;
    words.push(StaticWord::Word(length))?;
    push_packed(bytes, words)?;
    let count = words.len() - start;
    pad(words, count)?;
    Ok(())
}
