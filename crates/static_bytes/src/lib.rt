//! The static words of a program as the static bytes of an image, with the addresses of the labels of its assembled code.
#![tactic(auto)]

pub mod laws;

ghost use Rattle.std.specs.Prelude.{◌≡◌, ◌++◌, IfOk, OnOk};
ghost use Rattle.static_bytes.specs.Bytes.{long_of, bytes_of, static_bytes};

use std::alloc::Global;
use t_base::Memory;
use word_ir::StaticWord;

/// Where static words start.
const STATICS_START: u32 = 0x2000_0000;

/// What a static word holds at first.
fn long_of(labels: &[u32], word: StaticWord) -> u32
    ensures { result ≡ long_of labels.now word }
{
    match word {
        StaticWord::Word(n) => n,
        StaticWord::Static(place) => STATICS_START.wrapping_add(place.wrapping_mul(4)),
        StaticWord::Code(block) => match labels.get(block as usize) {
            Some(at) => *at,
            None => 0,
        },
    }
}

fn push_word(bytes: &mut Vec<u8>, labels: &[u32], word: StaticWord) -> Result<(), Memory>
    ensures { OnOk result (bytes.new.items ≡ bytes.old.items ++ bytes_of labels.now word) }
{
    bytes.extend_from_slice(&long_of(labels, word).to_be_bytes())?;
    Ok(())
}

/// The static bytes of an image: four for each static word, the highest first. The code of a block is the address of the label with
/// its number, of these addresses of labels. The only error is the want of memory.
pub fn static_bytes(
    alloc: Global,
    statics: &[StaticWord],
    labels: &[u32],
) -> Result<Vec<u8>, Memory>
    ensures { IfOk result (λ bytes. bytes.items ≡ static_bytes statics.now labels.now) }
{
    let mut bytes = Vec::new(alloc);
    for word in statics {
        push_word(&mut bytes, labels, *word)?;
    }
    Ok(bytes)
}
