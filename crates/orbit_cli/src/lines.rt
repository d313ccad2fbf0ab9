//! The lines that are printed, each by a function of its own.

ghost use Rattle.std.specs.Prelude.{◌≡◌, ◌<◌, Some};
ghost use Rattle.std.specs.Fmt.{signed_decimal};
ghost use Rattle.t_ports.specs.Pieces.{text_of};
ghost use Rattle.orbit_cli.specs.Changes.{change, IsPut};
ghost use Rattle.orbit_cli.specs.Lines.{numbered_text, unnamed_text, character_text, kind_text, line_end, value_line, fault_words, operand_of, raised_line, fault_line, region_name, full_line, limit_line, stop_name, hex_digit, hex_address, stop_line, read_kind_name, syntax_kind_name, source_kind_name, located_line, source_line, limit_name, limit_count, limit_number, count_line, over_line, counts_line, image_kind_name, place_line, bad_image_line, unread_line, long_line};

use crate::refusal::SourceKind;
use image_file::ImageKind;
use itoa::Buffer;
use m68020_step::Why;
use t_base::Fault;
use t_core::LimitFault;
use t_ports::pieces::put_all;
use t_ports::ports::{Failed, Sink};
use t_reader::ReadKind;
use t_rows::SyntaxKind;

// Puts the pieces one after the other.
fn put_pieces<S: Sink>(sink: &mut S, pieces: &[&[u8]]) -> Result<(), Failed>
    ensures { IsPut S.Sink (change sink.old sink.new) (text_of pieces.now) result }
{
    put_all(sink, pieces)
}

/// Puts a text in one piece.
pub fn put_text<S: Sink>(sink: &mut S, text: &[u8]) -> Result<(), Failed>
    ensures { IsPut S.Sink (change sink.old sink.new) text.now result }
{
    sink.put(text)
}

// What ends the last line of output whose last byte is this one.
fn end_of_line<'a>(last: Option<u8>) -> &'a [u8]
    ensures { result.now ≡ line_end last }
{
    match last {
        None => b"",
        Some(byte) => { if byte == b'\n' { b"" } else { b"\n" } }
    }
}

/// Puts the line of a value that is printed as the text, behind output whose last byte is `last`.
pub fn put_value<S: Sink>(sink: &mut S, last: Option<u8>, text: &[u8]) -> Result<(), Failed>
    ensures { IsPut S.Sink (change sink.old sink.new) (value_line last text.now) result }
{
    put_pieces(sink, &[end_of_line(last), b"value ", text, b"\n"])
}

/// The same of a number.
pub fn put_number_value<S: Sink>(sink: &mut S, last: Option<u8>, number: i32) -> Result<(), Failed>
    ensures { IsPut S.Sink (change sink.old sink.new) (value_line last (signed_decimal number)) result }
{
    let mut buffer = Buffer::new();
    put_value(sink, last, buffer.format(number).as_bytes())
}

// How a character is printed by its number.
#[tactic(auto, unfolding(crate::specs::Lines::numbered_text))]
fn numbered(code: u8) -> [u8; 5]
    ensures { result ≡ numbered_text code }
{
    [
        b'#',
        b'\\',
        b'0' + code / 100,
        b'0' + code / 10 % 10,
        b'0' + code % 10,
    ]
}

// The same of a character that has no name.
fn put_unnamed_value<S: Sink>(sink: &mut S, last: Option<u8>, code: u8) -> Result<(), Failed>
    ensures { IsPut S.Sink (change sink.old sink.new) (value_line last (unnamed_text code)) result }
{
    if code.is_ascii_graphic() {
        return put_value(sink, last, &[b'#', b'\\', code]);
    }
    put_value(sink, last, &numbered(code))
}

/// The same of a character.
pub fn put_character_value<S: Sink>(sink: &mut S, last: Option<u8>, code: u8) -> Result<(), Failed>
    ensures { IsPut S.Sink (change sink.old sink.new) (value_line last (character_text code)) result }
{
    match code {
        b' ' => put_value(sink, last, b"#\\space"),
        b'\n' => put_value(sink, last, b"#\\newline"),
        b'\t' => put_value(sink, last, b"#\\tab"),
        _ => put_unnamed_value(sink, last, code),
    }
}

/// How a value of the kind is printed.
pub fn kind_name(kind: u8) -> &'static [u8]
    ensures { result.now ≡ kind_text kind }
{
    match kind {
        1 => b"{Pair}",
        2 => b"{Vector}",
        3 => b"{String}",
        4 => b"{Procedure}",
        5 => b"{Object}",
        _ => b"{Operation}",
    }
}

// A fault's number and name, and the number that an error of the program gives.
fn words_of(fault: Fault) -> (&'static [u8], Option<i32>)
    ensures words { result.0.now ≡ fault_words fault }
    ensures operand { result.1 ≡ operand_of fault }
{
    match fault {
        Fault::NotProcedure => (b"1 NotProcedure", None),
        Fault::WrongCount => (b"2 WrongCount", None),
        Fault::NotFixnum => (b"3 NotFixnum", None),
        Fault::NotPair => (b"4 NotPair", None),
        Fault::NotVector => (b"5 NotVector", None),
        Fault::IndexRange => (b"6 IndexRange", None),
        Fault::FixnumOverflow => (b"7 FixnumOverflow", None),
        Fault::DivideByZero => (b"8 DivideByZero", None),
        Fault::Unbound => (b"9 Unbound", None),
        Fault::DeadEscape => (b"10 DeadEscape", None),
        Fault::NotHandled => (b"11 NotHandled", None),
        Fault::NotChar => (b"12 NotChar", None),
        Fault::NotString => (b"13 NotString", None),
        Fault::CharRange => (b"14 CharRange", None),
        Fault::User(number) => (b"15 User", Some(number)),
        Fault::NotSymbol => (b"16 NotSymbol", None),
    }
}

// Puts the line of a fault with the number that an error of the program gives.
fn put_raised<S: Sink>(sink: &mut S, words: &[u8], number: i32) -> Result<(), Failed>
    ensures { IsPut S.Sink (change sink.old sink.new) (raised_line words.now (Some number)) result }
{
    let mut buffer = Buffer::new();
    let number = buffer.format(number).as_bytes();
    put_pieces(sink, &[b"fault ", words, b" ", number, b"\n"])
}

/// Puts the line of a fault.
pub fn put_fault<S: Sink>(sink: &mut S, fault: Fault) -> Result<(), Failed>
    ensures { IsPut S.Sink (change sink.old sink.new) (fault_line fault) result }
{
    let (words, operand) = words_of(fault);
    match operand {
        None => put_pieces(sink, &[b"fault ", words, b"\n"]),
        Some(number) => put_raised(sink, words, number),
    }
}

fn region(stack: bool) -> &'static [u8]
    ensures { result.now ≡ region_name stack }
{
    if stack { b"stack" } else { b"heap" }
}

/// Puts the line of a full heap or stack, with the bytes asked for and left.
pub fn put_full<S: Sink>(sink: &mut S, stack: bool, asked: u32, left: u32) -> Result<(), Failed>
    ensures { IsPut S.Sink (change sink.old sink.new) (full_line stack asked left) result }
{
    let mut asked_text = Buffer::new();
    let mut left_text = Buffer::new();
    let asked = asked_text.format(asked).as_bytes();
    let left = left_text.format(left).as_bytes();
    put_pieces(
        sink,
        &[
            region(stack),
            b" full: asked ",
            asked,
            b" left ",
            left,
            b"\n",
        ],
    )
}

/// Puts the line of a run that did not end within so many instructions.
pub fn put_limit<S: Sink>(sink: &mut S, steps: u64) -> Result<(), Failed>
    ensures { IsPut S.Sink (change sink.old sink.new) (limit_line steps) result }
{
    let mut buffer = Buffer::new();
    let steps = buffer.format(steps).as_bytes();
    put_pieces(sink, &[b"step limit: ", steps, b"\n"])
}

fn name_of_stop(why: Why) -> &'static [u8]
    ensures { result.now ≡ stop_name why }
{
    match why {
        Why::Illegal => b"Illegal",
        Why::BadAddress => b"BadAddress",
        Why::OddAddress => b"OddAddress",
        Why::ZeroDivide => b"ZeroDivide",
        Why::BadService => b"BadService",
    }
}

fn digit_of(digit: u32) -> u8
    requires { digit < 16 }
    ensures { result ≡ hex_digit digit }
{
    if digit < 10 {
        b'0' + digit as u8
    } else {
        55 + digit as u8
    }
}

// The eight digits of an address.
#[tactic(auto, unfolding(crate::specs::Lines::hex_address))]
fn digits_of(address: u32) -> [u8; 8]
    ensures { result ≡ hex_address address }
{
    [
        digit_of(address / 0x1000_0000 % 16),
        digit_of(address / 0x100_0000 % 16),
        digit_of(address / 0x10_0000 % 16),
        digit_of(address / 0x1_0000 % 16),
        digit_of(address / 0x1000 % 16),
        digit_of(address / 0x100 % 16),
        digit_of(address / 0x10 % 16),
        digit_of(address % 16),
    ]
}

/// Puts the line of a stop of the machine at an address.
pub fn put_stop<S: Sink>(sink: &mut S, why: Why, at: u32) -> Result<(), Failed>
    ensures { IsPut S.Sink (change sink.old sink.new) (stop_line why at) result }
{
    put_pieces(
        sink,
        &[
            b"machine stop ",
            name_of_stop(why),
            b" at ",
            &digits_of(at),
            b"\n",
        ],
    )
}

fn name_of_read_kind<'a>(kind: ReadKind) -> &'a [u8]
    ensures { result.now ≡ read_kind_name kind }
{
    match kind {
        ReadKind::BadByte => b"R1 BadByte",
        ReadKind::Unclosed => b"R2 Unclosed",
        ReadKind::ExtraClose => b"R3 ExtraClose",
        ReadKind::FixnumRange => b"R4 FixnumRange",
        ReadKind::BadHash => b"R5 BadHash",
        ReadKind::BadString => b"R6 BadString",
        ReadKind::LoneDot => b"R7 LoneDot",
        ReadKind::TooDeep => b"R8 TooDeep",
    }
}

fn name_of_syntax_kind<'a>(kind: SyntaxKind) -> &'a [u8]
    ensures { result.now ≡ syntax_kind_name kind }
{
    match kind {
        SyntaxKind::BadForm => b"S1 BadForm",
        SyntaxKind::Twice => b"S2 Twice",
        SyntaxKind::ParamTwice => b"S3 ParamTwice",
        SyntaxKind::NotOperation => b"S4 NotOperation",
        SyntaxKind::NotSettable => b"S5 NotSettable",
        SyntaxKind::NotTopLevel => b"S6 NotTopLevel",
        SyntaxKind::ConstantSet => b"S7 ConstantSet",
        SyntaxKind::FreeName => b"S8 FreeName",
    }
}

fn name_of_source_kind<'a>(kind: SourceKind) -> &'a [u8]
    ensures { result.now ≡ source_kind_name kind }
{
    match kind {
        SourceKind::Read(kind) => name_of_read_kind(kind),
        SourceKind::Syntax(kind) => name_of_syntax_kind(kind),
    }
}

// Puts the line of a refusal at a line and column.
fn put_located<S: Sink>(
    sink: &mut S,
    src: &str,
    line: &str,
    column: &str,
    refusal: &[u8],
) -> Result<(), Failed>
    ensures { IsPut S.Sink (change sink.old sink.new) (located_line src.now line.now column.now refusal.now) result }
{
    put_pieces(
        sink,
        &[
            src.as_bytes(),
            b":",
            line.as_bytes(),
            b":",
            column.as_bytes(),
            b": ",
            refusal,
            b"\n",
        ],
    )
}

/// Puts the line of a text with a fault of the grammar, or with a form that is refused.
pub fn put_source_fault<S: Sink>(
    sink: &mut S,
    src: &str,
    line: u32,
    column: u32,
    kind: SourceKind,
) -> Result<(), Failed>
    ensures { IsPut S.Sink (change sink.old sink.new) (source_line src.now line column kind) result }
{
    let mut line_text = Buffer::new();
    let mut column_text = Buffer::new();
    let line = line_text.format(line);
    let column = column_text.format(column);
    put_located(sink, src, line, column, name_of_source_kind(kind))
}

fn name_of_limit<'a>(fault: LimitFault) -> &'a [u8]
    ensures { result.now ≡ limit_name fault }
{
    match fault {
        LimitFault::FormNodes { .. } => b"L1 FormNodes",
        LimitFault::UnitWeight { .. } => b"L2 UnitWeight",
        LimitFault::Params { .. } => b"L3 Params",
    }
}

fn count_of_limit(fault: LimitFault) -> u64
    ensures { result ≡ limit_count fault }
{
    match fault {
        LimitFault::FormNodes { count, .. } => count,
        LimitFault::UnitWeight { count } => count,
        LimitFault::Params { count, .. } => count,
    }
}

fn number_of_limit(fault: LimitFault) -> u64
    ensures { result ≡ limit_number fault }
{
    match fault {
        LimitFault::FormNodes { .. } => 2000,
        LimitFault::UnitWeight { .. } => 4194304,
        LimitFault::Params { .. } => 20,
    }
}

// Puts the line of a count that is over its limit.
fn put_count<S: Sink>(
    sink: &mut S,
    src: &str,
    limit: &[u8],
    count: &str,
    number: &str,
) -> Result<(), Failed>
    ensures { IsPut S.Sink (change sink.old sink.new) (count_line src.now limit.now count.now number.now) result }
{
    put_pieces(
        sink,
        &[
            src.as_bytes(),
            b": ",
            limit,
            b" ",
            count.as_bytes(),
            b" over ",
            number.as_bytes(),
            b"\n",
        ],
    )
}

/// Puts the line of a text that is over a limit.
pub fn put_over<S: Sink>(sink: &mut S, src: &str, fault: LimitFault) -> Result<(), Failed>
    ensures { IsPut S.Sink (change sink.old sink.new) (over_line src.now fault) result }
{
    let mut count_text = Buffer::new();
    let mut number_text = Buffer::new();
    let count = count_text.format(count_of_limit(fault));
    let number = number_text.format(number_of_limit(fault));
    put_count(sink, src, name_of_limit(fault), count, number)
}

/// Puts the line of a text's counts: the nodes of its largest form, and its weight.
pub fn put_counts<S: Sink>(sink: &mut S, nodes: u32, weight: u64) -> Result<(), Failed>
    ensures { IsPut S.Sink (change sink.old sink.new) (counts_line nodes weight) result }
{
    let mut nodes_text = Buffer::new();
    let mut weight_text = Buffer::new();
    let nodes = nodes_text.format(nodes);
    let weight = weight_text.format(weight);
    put_pieces(
        sink,
        &[
            b"nodes ",
            nodes.as_bytes(),
            b" weight ",
            weight.as_bytes(),
            b"\n",
        ],
    )
}

fn name_of_image_kind<'a>(kind: ImageKind) -> &'a [u8]
    ensures { result.now ≡ image_kind_name kind }
{
    match kind {
        ImageKind::Magic => b"I1 Magic",
        ImageKind::Version => b"I2 Version",
        ImageKind::Short => b"I3 Short",
        ImageKind::Long => b"I4 Long",
        ImageKind::Field => b"I5 Field",
    }
}

// Puts a name, the kind of what fails and its place.
fn put_place<S: Sink>(sink: &mut S, img: &str, kind: &[u8], at: &str) -> Result<(), Failed>
    ensures { IsPut S.Sink (change sink.old sink.new) (place_line img.now kind.now at.now) result }
{
    put_pieces(
        sink,
        &[img.as_bytes(), b": ", kind, b" at ", at.as_bytes(), b"\n"],
    )
}

/// Puts the line of bytes that are no image.
pub fn put_bad_image<S: Sink>(
    sink: &mut S,
    img: &str,
    kind: ImageKind,
    at: u32,
) -> Result<(), Failed>
    ensures { IsPut S.Sink (change sink.old sink.new) (bad_image_line img.now kind at) result }
{
    let mut buffer = Buffer::new();
    put_place(sink, img, name_of_image_kind(kind), buffer.format(at))
}

/// Puts the line of a file that could not be read.
pub fn put_unread<S: Sink>(sink: &mut S, name: &str) -> Result<(), Failed>
    ensures { IsPut S.Sink (change sink.old sink.new) (unread_line name.now) result }
{
    put_pieces(sink, &[b"cannot read: ", name.as_bytes(), b"\n"])
}

/// Puts the line of a file that is too long.
pub fn put_long<S: Sink>(sink: &mut S, name: &str) -> Result<(), Failed>
    ensures { IsPut S.Sink (change sink.old sink.new) (long_line name.now) result }
{
    put_pieces(sink, &[b"too long: ", name.as_bytes(), b"\n"])
}
