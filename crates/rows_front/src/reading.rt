//! Texts that are read, and texts that are refused.

use std::alloc::Global;
use std::test::Fail;
use t_base::{Memory, Name, Names, Span};
use t_reader::{Datum, ReadFault, ReadKind, Unit, read_unit};

/// The bytes of a source that are read at most.
const MOST: usize = 1 << 20;

/// The kind and the span of the first fault, or nothing where the text is read.
fn fault_of(alloc: Global, text: &[u8]) -> Result<Option<(ReadKind, u32, u32)>, Memory> {
    if text.len() > MOST {
        return Err(Memory);
    }
    match read_unit(alloc, text) {
        Ok(_) => Ok(None),
        Err(ReadFault::Fault { kind, span }) => Ok(Some((kind, span.start, span.end))),
        Err(ReadFault::Memory) => Err(Memory),
    }
}

/// The byte, some times over.
fn repeated(alloc: Global, byte: u8, count: usize) -> Result<Vec<u8>, Memory> {
    let mut bytes = Vec::new(alloc);
    for _ in 0..count {
        bytes.push(byte)?;
    }
    Ok(bytes)
}

fn joined(alloc: Global, parts: &[&[u8]]) -> Result<Vec<u8>, Memory> {
    let mut bytes = Vec::new(alloc);
    for part in parts {
        bytes.extend_from_slice(part)?;
    }
    Ok(bytes)
}

#[test]
fn worked_refusals(rt: HostRuntime) -> Result<(), Fail> {
    let alloc = rt.alloc();
    let deep = repeated(alloc, b'(', 401)?;
    for (text, kind, start) in [
        (b"536870912".as_slice(), ReadKind::FixnumRange, 0),
        (b"(+ 1 (car 2)".as_slice(), ReadKind::Unclosed, 0),
        (b"(car 1))".as_slice(), ReadKind::ExtraClose, 7),
        (b"(a . )".as_slice(), ReadKind::LoneDot, 5),
        (deep.as_slice(), ReadKind::TooDeep, 400),
        (b"#q".as_slice(), ReadKind::BadHash, 0),
        (b"\"a\\n\"".as_slice(), ReadKind::BadString, 2),
        (b"[".as_slice(), ReadKind::BadByte, 0),
    ] {
        let found = fault_of(alloc, text)?.map(|f| (f.0, f.1));
        assert_eq!(rt; found, Some((kind, start)));
    }
    Ok(())
}

/// Snippets with one fault each, and where it stands in them.
#[test]
fn faults_at_each_place(rt: HostRuntime) -> Result<(), Fail> {
    let alloc = rt.alloc();
    let deep = repeated(alloc, b'(', 401)?;
    let marks = repeated(alloc, b'\'', 401)?;
    for (bad, kind, start, end) in [
        (b"]".as_slice(), ReadKind::BadByte, 0, 1),
        (b"\0".as_slice(), ReadKind::BadByte, 0, 1),
        (b"\x7F".as_slice(), ReadKind::BadByte, 0, 1),
        (b"\x80".as_slice(), ReadKind::BadByte, 0, 1),
        (b"a\xFF".as_slice(), ReadKind::BadByte, 1, 2),
        (b"(a 'b".as_slice(), ReadKind::Unclosed, 0, 1),
        (b"(a (b".as_slice(), ReadKind::Unclosed, 3, 4),
        (b")".as_slice(), ReadKind::ExtraClose, 0, 1),
        (b"(a . ')".as_slice(), ReadKind::ExtraClose, 6, 7),
        (b"+536870912".as_slice(), ReadKind::FixnumRange, 0, 10),
        (b"-536870913".as_slice(), ReadKind::FixnumRange, 0, 10),
        (
            b"99999999999999999999".as_slice(),
            ReadKind::FixnumRange,
            0,
            20,
        ),
        (b"#true".as_slice(), ReadKind::BadHash, 0, 1),
        (b"#\\spaces".as_slice(), ReadKind::BadHash, 0, 1),
        (b"#\\\0".as_slice(), ReadKind::BadHash, 0, 1),
        (b"#\\".as_slice(), ReadKind::BadHash, 0, 1),
        (b"\"a\\n\"".as_slice(), ReadKind::BadString, 2, 3),
        (b"\"a\0\"".as_slice(), ReadKind::BadString, 2, 3),
        (b"\"\r\"".as_slice(), ReadKind::BadString, 1, 2),
        (b"\"\x80".as_slice(), ReadKind::BadString, 1, 2),
        (b".".as_slice(), ReadKind::LoneDot, 0, 1),
        (deep.as_slice(), ReadKind::TooDeep, 400, 401),
        (marks.as_slice(), ReadKind::TooDeep, 400, 401),
    ] {
        for front in [
            b"".as_slice(),
            b"; (\n".as_slice(),
            b"(a . b) 'c \"d\" ".as_slice(),
        ] {
            for back in [
                b"".as_slice(),
                b"\n".as_slice(),
                b" e ; )".as_slice(),
                b" [".as_slice(),
            ] {
                let text = joined(alloc, &[front, bad, back])?;
                let at = front.len() as u32;
                let lists = kind == ReadKind::Unclosed && back == b" [".as_slice();
                if !lists {
                    assert_eq!(rt;
                        fault_of(alloc, text.as_slice())?,
                        Some((kind, at.wrapping_add(start), at.wrapping_add(end)))
                    );
                }
            }
        }
    }
    Ok(())
}

#[test]
fn dots_in_wrong_places(rt: HostRuntime) -> Result<(), Fail> {
    let alloc = rt.alloc();
    for (text, at, end) in [
        (b"a . b".as_slice(), 2, 3),
        (b"( . a)".as_slice(), 2, 3),
        (b"(. )".as_slice(), 1, 2),
        (b"(a '. b)".as_slice(), 4, 5),
        (b"(a . . b)".as_slice(), 5, 6),
        (b"(a . b . c)".as_slice(), 7, 8),
        (b"(a . '. b)".as_slice(), 6, 7),
        (b"(a .)".as_slice(), 4, 5),
        (b"(a . b cd)".as_slice(), 7, 9),
        (b"(a . b (c))".as_slice(), 7, 8),
        (b"(a . (b) 'c)".as_slice(), 9, 10),
        (b"(a . 'b \"c\")".as_slice(), 8, 11),
        (b"(a . b .. c)".as_slice(), 7, 9),
    ] {
        assert_eq!(rt; fault_of(alloc, text)?, Some((ReadKind::LoneDot, at, end)));
    }
    Ok(())
}

#[test]
fn ends_and_depths(rt: HostRuntime) -> Result<(), Fail> {
    let alloc = rt.alloc();
    for (text, at, end) in [
        (b"a \"b c".as_slice(), 2, 6),
        (b"\"a\\".as_slice(), 0, 3),
        (b"\"a\\\" ; b".as_slice(), 0, 8),
        (b"(a \"b) c".as_slice(), 3, 8),
        (b"(a . ".as_slice(), 0, 1),
        (b"(a . b".as_slice(), 0, 1),
        (b"(a . '".as_slice(), 5, 6),
        (b"''(a)'".as_slice(), 5, 6),
        (b"((a)(b ; )".as_slice(), 4, 5),
    ] {
        assert_eq!(rt; fault_of(alloc, text)?, Some((ReadKind::Unclosed, at, end)));
    }
    let open = repeated(alloc, b'(', 400)?;
    let close = repeated(alloc, b')', 400)?;
    let marks = repeated(alloc, b'\'', 400)?;
    let lists = joined(
        alloc,
        &[
            open.as_slice(),
            close.as_slice(),
            open.as_slice(),
            b"a",
            close.as_slice(),
        ],
    )?;
    assert_eq!(rt; fault_of(alloc, lists.as_slice())?, None);
    let quotes = joined(alloc, &[marks.as_slice(), b"a", marks.as_slice(), b"()"])?;
    assert_eq!(rt;
        fault_of(alloc, quotes.as_slice())?,
        Some((ReadKind::TooDeep, 801, 802))
    );
    Ok(())
}

/// What is still to be shown.
#[derive(Clone, Copy)]
enum Step {
    Node(u32),
    Close,
}

fn push_number(alloc: Global, out: &mut Vec<u8>, number: i64) -> Result<(), Memory> {
    let digits = format!(in alloc; "{number}")?;
    out.extend_from_slice(digits.as_bytes())?;
    Ok(())
}

fn push_span(alloc: Global, out: &mut Vec<u8>, span: Span) -> Result<(), Memory> {
    push_number(alloc, out, i64::from(span.start))?;
    out.push(b'-')?;
    push_number(alloc, out, i64::from(span.end))?;
    out.push(b':')?;
    Ok(())
}

/// The datum, which begins a pair or stands alone.
fn push_datum(
    alloc: Global,
    out: &mut Vec<u8>,
    names: &Names,
    datum: &Datum,
) -> Result<(), Memory> {
    match datum {
        Datum::Fix(n) => push_number(alloc, out, i64::from(*n))?,
        Datum::Char(c) => {
            out.push(b'#')?;
            push_number(alloc, out, i64::from(*c))?;
        }
        Datum::Nil => out.extend_from_slice(b"nil")?,
        Datum::True => out.extend_from_slice(b"true")?,
        Datum::Str(bytes) => {
            out.push(b'"')?;
            out.extend_from_slice(bytes.as_slice())?;
            out.push(b'"')?;
        }
        Datum::Sym(name) => {
            if name.0 < names.count() {
                out.extend_from_slice(names.text(*name))?;
            }
        }
        Datum::Pair { .. } => out.push(b'[')?,
    }
    Ok(())
}

/// The data of the unit, a pair as `[ head tail ]`.
fn shown(alloc: Global, unit: &Unit, spans: bool) -> Result<Vec<u8>, Memory> {
    let mut out = Vec::new(alloc);
    let mut steps = Vec::new(alloc);
    for form in unit.forms.iter().rev() {
        steps.push(Step::Node(*form))?;
    }
    for _ in 0..10_000 {
        match steps.pop() {
            Some(Step::Node(key)) => {
                if let Some(node) = unit.nodes.get(key as usize) {
                    if spans {
                        push_span(alloc, &mut out, node.span)?;
                    }
                    push_datum(alloc, &mut out, &unit.names, &node.datum)?;
                    if let Datum::Pair { head, tail } = &node.datum {
                        steps.push(Step::Close)?;
                        steps.push(Step::Node(*tail))?;
                        steps.push(Step::Node(*head))?;
                    }
                }
            }
            Some(Step::Close) => out.push(b']')?,
            None => break,
        }
        out.push(b' ')?;
    }
    Ok(out)
}

fn data_of(alloc: Global, text: &[u8], spans: bool) -> Result<Vec<u8>, ReadFault> {
    if text.len() > MOST {
        return Err(ReadFault::Memory);
    }
    let unit = read_unit(alloc, text)?;
    Ok(shown(alloc, &unit, spans)?)
}

#[test]
fn data_of_texts(rt: HostRuntime) -> Result<(), Fail> {
    let alloc = rt.alloc();
    for (text, data) in [
        (b"".as_slice(), b"".as_slice()),
        (b" \t\r\n; \0\xFF (\n;".as_slice(), b"".as_slice()),
        (
            b"() nil nIL #f #F #t #T".as_slice(),
            b"nil nil nil nil nil true true ".as_slice(),
        ),
        (
            b"+07 -0 536870911 -536870912 000000000001".as_slice(),
            b"7 0 536870911 -536870912 1 ".as_slice(),
        ),
        (
            b"1+ -1+ + - 1.5 .. a.b --1 +-1".as_slice(),
            b"1+ -1+ + - 1.5 .. a.b --1 +-1 ".as_slice(),
        ),
        (
            b"#\\a #\\Z #\\( #\\; #\\\" #\\\\ #\\# #\\SPACE #\\newline #\\Tab #\\.".as_slice(),
            b"#97 #90 #40 #59 #34 #92 #35 #32 #10 #9 #46 ".as_slice(),
        ),
        (
            b"12#t a\"b\"c 'D(e)f".as_slice(),
            b"12 true a \"b\" c [ quote [ d nil ] ] [ e nil ] f ".as_slice(),
        ),
        (
            b"\"a\\\"\\\\ \t\n;'\"".as_slice(),
            b"\"a\"\\ \t\n;'\" ".as_slice(),
        ),
        (
            b"(a . (B . (c)))(d e . f)".as_slice(),
            b"[ a [ b [ c nil ] ] ] [ d [ e f ] ] ".as_slice(),
        ),
        (
            b"(LET* ((x? 1)) <=>!$%&*/:@^_~)".as_slice(),
            b"[ let* [ [ [ x? [ 1 nil ] ] nil ] [ <=>!$%&*/:@^_~ nil ] ] ] ".as_slice(),
        ),
    ] {
        let found = data_of(alloc, text, false)?;
        assert_eq!(rt; found.as_slice(), data);
    }
    Ok(())
}

#[test]
fn spans_of_data(rt: HostRuntime) -> Result<(), Fail> {
    let alloc = rt.alloc();
    for (text, data) in [
        (
            b"(a . 'b)".as_slice(),
            b"0-8:[ 1-2:a 5-7:[ 5-6:quote 5-7:[ 6-7:b 5-7:nil ] ] ] ".as_slice(),
        ),
        (
            b" (1 (x)) \"q\"".as_slice(),
            b"1-8:[ 2-3:1 1-8:[ 4-7:[ 5-6:x 4-7:nil ] 1-8:nil ] ] 9-12:\"q\" ".as_slice(),
        ),
        (
            b"'() #\\space".as_slice(),
            b"0-3:[ 0-1:quote 0-3:[ 1-3:nil 0-3:nil ] ] 4-11:#32 ".as_slice(),
        ),
        (
            b"'\n'a".as_slice(),
            b"0-4:[ 0-1:quote 0-4:[ 2-4:[ 2-3:quote 2-4:[ 3-4:a 2-4:nil ] ] 0-4:nil ] ] ".as_slice(),
        ),
    ] {
        let found = data_of(alloc, text, true)?;
        assert_eq!(rt; found.as_slice(), data);
    }
    Ok(())
}

/// The names, each with a blank behind it.
fn names_of(alloc: Global, text: &[u8]) -> Result<Vec<u8>, ReadFault> {
    if text.len() > MOST {
        return Err(ReadFault::Memory);
    }
    let unit = read_unit(alloc, text)?;
    let mut out = Vec::new(alloc);
    for n in 0..unit.names.count() {
        out.extend_from_slice(unit.names.text(Name(n)))?;
        out.push(b' ')?;
    }
    Ok(out)
}

#[test]
fn names_in_first_seen_order(rt: HostRuntime) -> Result<(), Fail> {
    let alloc = rt.alloc();
    for (text, names) in [
        (b"".as_slice(), b"setter contents set-contents ".as_slice()),
        (
            b"car setter Foo 'foo quote BAR (foo . Contents) nil #t".as_slice(),
            b"setter contents set-contents car foo quote bar ".as_slice(),
        ),
    ] {
        let found = names_of(alloc, text)?;
        assert_eq!(rt; found.as_slice(), names);
    }
    Ok(())
}
