//! A state of the machine as text.

use m68020_step::{Machine, Step, Why};
use std::alloc::{AllocError, Global};

fn flag(set: bool, name: char) -> char {
    if set { name } else { '-' }
}

fn sum(bytes: Option<&[u8]>) -> u32 {
    let mut sum = 0u32;
    for b in bytes.unwrap_or(&[]) {
        sum = sum.wrapping_mul(31).wrapping_add(u32::from(*b));
    }
    sum
}

fn word_of(answer: Step) -> &'static str {
    match answer {
        Step::On => "on",
        Step::Service(_) => "service",
        Step::Stop(Why::Illegal) => "Illegal",
        Step::Stop(Why::BadAddress) => "BadAddress",
        Step::Stop(Why::OddAddress) => "OddAddress",
        Step::Stop(Why::ZeroDivide) => "ZeroDivide",
        Step::Stop(Why::BadService) => "BadService",
    }
}

/// An answer of the machine: its name, with the number of a service.
pub fn answer_text(alloc: Global, answer: Step) -> Result<String, AllocError> {
    let word = word_of(answer);
    if let Step::Service(vector) = answer {
        return format!(in alloc; "{word}{vector}");
    }
    format!(in alloc; "{word}")
}

/// A state with 64 bytes of heap and of stack: program counter, condition codes, data and address registers, and a sum of each region.
pub fn state_text(alloc: Global, m: &Machine, statics: u32) -> Result<String, AllocError> {
    let f = m.flags();
    let mut text = format!(in alloc;
        "{:x} {}{}{}{}{}",
        m.pc(),
        flag(f.x, 'x'),
        flag(f.n, 'n'),
        flag(f.z, 'z'),
        flag(f.v, 'v'),
        flag(f.c, 'c')
    )?;
    for i in 0..8u8 {
        write!(text, " {:x}", m.d(i))?;
    }
    for i in 0..8u8 {
        write!(text, " {:x}", m.a(i))?;
    }
    let fixed = if statics == 0 {
        0
    } else {
        sum(m.bytes_at(0x2000_0000, statics))
    };
    write!(
        text,
        " {:x} {:x} {:x}",
        fixed,
        sum(m.bytes_at(0x4000_0000, 64)),
        sum(m.bytes_at(0x6000_0000, 64))
    )?;
    Ok(text)
}
