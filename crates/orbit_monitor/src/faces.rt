//! What a word stands for: its face, over storage and the names of the image.

ghost use Rattle.std.specs.Prelude.{◌≡◌, ◌<◌, ◌≤◌, ◌+◌, length, option_map, IfSome};
ghost use Rattle.word_faces.specs.Faces.{word_in, fixnum_of, count_of, character_of, immediate_face, kind_of, name_at, symbol_face, object_face, extended_face, face_of};
ghost use Rattle.machine_services.specs.Services.{reader_of};
ghost use Rattle.orbit_monitor.specs.Answering.{FaceIsNamed};

use m68020_step::Machine;
use m68020_step::storage::STATICS_START;
use t_base::{Face, Name, Names};

/// The bytes from an address on, where they lie whole in static, heap or stack.
pub fn data(machine: &Machine, at: u32, len: u32) -> Option<&[u8]>
    requires { 0 < len }
    ensures exact { option_map (λ x. x.now) result ≡ reader_of machine.now.storage at len }
    ensures whole { IfSome result (λ x. length x.now ≡ len) }
{
    if at < STATICS_START {
        None
    } else {
        machine.bytes_at(at, len)
    }
}

/// The long word that begins at a place of some bytes.
pub fn word_in(bytes: &[u8], i: usize) -> u32
    requires { i + 4 ≤ length bytes.now }
    ensures { result ≡ word_in i bytes.now }
{
    let word = &bytes[i..][..4];
    u32::from_be_bytes([word[0], word[1], word[2], word[3]])
}

/// The number of a fixnum.
pub fn fixnum(word: u32) -> Option<i32>
    ensures { result ≡ fixnum_of word }
{
    if word % 4 == 0 {
        Some(word.cast_signed() / 4)
    } else {
        None
    }
}

/// The number of a fixnum that is not negative.
pub fn count(word: u32) -> Option<u32>
    ensures exact { result ≡ count_of word }
    ensures small { IfSome result (λ n. n < 0x2000_0000) }
{
    if word % 4 == 0 && word < 0x8000_0000 {
        Some(word / 4)
    } else {
        None
    }
}

/// The code of a character, up to 127.
pub fn character(word: u32) -> Option<u8>
    ensures { result ≡ character_of word }
{
    if word % 256 == 1 && word / 256 < 128 {
        Some((word / 256) as u8)
    } else {
        None
    }
}

fn immediate(word: u32) -> Option<Face>
    ensures { result ≡ immediate_face word }
{
    if word == 5 {
        return Some(Face::Nil);
    }
    if word == 9 {
        return Some(Face::True);
    }
    match character(word) {
        Some(code) => Some(Face::Char(code)),
        None => None,
    }
}

fn kind(header: u32) -> Option<u8>
    ensures { result ≡ kind_of header }
{
    if header == 0x11 {
        Some(2)
    } else if header == 0x15 {
        Some(3)
    } else if header == 0x1D || header == 0x29 || header == 0x2D {
        Some(4)
    } else if header == 0x21 {
        Some(5)
    } else if header == 0x25 {
        Some(6)
    } else {
        None
    }
}

fn name(names: &Names, place: u32) -> Option<Name>
    ensures exact { result ≡ name_at names.now place }
    ensures named { IfSome result (λ n. n.0 < length names.now) }
{
    if place < names.count() {
        Some(Name(place))
    } else {
        None
    }
}

fn symbol(machine: &Machine, names: &Names, at: u32) -> Option<Face>
    ensures exact { result ≡ symbol_face (reader_of machine.now.storage) names.now at }
    ensures named { IfSome result (FaceIsNamed names.now) }
{
    let bytes = data(machine, at, 8)?;
    let place = count(word_in(bytes, 4))?;
    let name = name(names, place)?;
    Some(Face::Symbol(name))
}

fn extended(machine: &Machine, names: &Names, at: u32) -> Option<Face>
    ensures exact { result ≡ extended_face (reader_of machine.now.storage) names.now at }
    ensures named { IfSome result (FaceIsNamed names.now) }
{
    let bytes = data(machine, at, 4)?;
    let header = word_in(bytes, 0);
    if header == 0x19 {
        return symbol(machine, names, at);
    }
    match kind(header) {
        Some(kind) => Some(Face::Kind(kind)),
        None => None,
    }
}

/// The face of a word. Nothing else has one: Unbound, a cell, an object that lies in code, a header that is no object's.
pub fn face(machine: &Machine, names: &Names, word: u32) -> Option<Face>
    ensures exact { result ≡ face_of (reader_of machine.now.storage) names.now word }
    ensures named { IfSome result (FaceIsNamed names.now) }
{
    match word % 4 {
        0 => Some(Face::Fix(word.cast_signed() / 4)),
        1 => immediate(word),
        2 => extended(machine, names, word - 2),
        _ => Some(Face::Kind(1)),
    }
}
