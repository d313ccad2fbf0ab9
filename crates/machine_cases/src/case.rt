//! A case, and the line of text that gives it.

ghost use Rattle.std.specs.Prelude.{length, IsTrue};
ghost use Rattle.std.specs.Option.{IfSome};
ghost use Rattle.m68020_step.specs.Boot.{is_code_length, is_statics_length};

use std::alloc::Global;

/// A program of at most 4,096 bytes with as many static bytes at most, and how many steps of it are made.
#[derive(Drop)]
pub struct Case {
    /// The bytes of its code.
    pub code: Vec<u8>,
    /// Its static bytes.
    pub statics: Vec<u8>,
    /// The number of steps.
    pub steps: u64,
}

fn bytes_of(alloc: Global, text: &str) -> Option<Vec<u8>> {
    if text == "-" {
        return Some(Vec::new(alloc));
    }
    hex::decode(alloc, text).ok()
}

/// The case of a line: code and static bytes in hexadecimal (`-` for none), and a number of steps, with a blank between.
/// None where the line is none, where the lengths are those of no image or past 4,096 bytes, and for want of memory.
pub fn case_of(alloc: Global, line: &str) -> Option<Case>
    ensures code { IfSome result (λ c. IsTrue (is_code_length (length c.code.items))) }
    ensures statics { IfSome result (λ c. IsTrue (is_statics_length (length c.statics.items))) }
{
    let mut words = line.split(' ');
    let code = bytes_of(alloc, words.next()?)?;
    let statics = bytes_of(alloc, words.next()?)?;
    let Ok(steps) = words.next()?.parse::<u64>() else {
        return None;
    };
    if code.len() % 2 == 1 || code.len() < 2 || 4096 < code.len() {
        return None;
    }
    if statics.len() % 8 != 0 || 4096 < statics.len() {
        return None;
    }
    Some(Case {
        code,
        statics,
        steps,
    })
}
