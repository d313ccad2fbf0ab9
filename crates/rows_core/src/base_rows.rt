// Places of a text, and the calls of t_base that take memory.
use std::test::Fail;
use t_base::{Bytes, Const, Name, Names, OpInfo, Shared, place};

#[test]
fn line_ends(rt: HostRuntime) {
    for (at, line, column) in [
        (0, 1, 1),
        (1, 1, 2),
        (2, 2, 1),
        (3, 2, 2),
        (4, 3, 1),
        (5, 4, 1),
    ] {
        assert_eq!(rt; place(b"a\nb\n\n", at), (line, column), "at {at}");
    }
    assert_eq!(rt; place(b"(define x 1) (define x 2)", 21), (1, 22));
    assert_eq!(rt; place(b"a\r\n\tb", 4), (2, 2));
    assert_eq!(rt; place(b"", 0), (1, 1));
}

#[test]
fn names_in_first_seen_order(rt: HostRuntime) -> Result<(), Fail> {
    let mut names = Names::new(rt.alloc());
    for (text, at) in [
        ("setter", 0),
        ("contents", 1),
        ("setter", 0),
        ("a", 2),
        ("contents", 1),
        ("A", 3),
    ] {
        assert!(rt; names.count() < 9);
        let name = names.intern(text.as_bytes())?;
        assert_eq!(rt; name.0, at, "{text}");
    }
    let copy = names.copy(rt.alloc())?;
    assert_eq!(rt; copy.count(), 4);
    assert_eq!(rt; copy.text(Name(1)), b"contents".as_slice());
    Ok(())
}

fn one_string(rt: &HostRuntime) -> Result<Vec<Bytes>, Fail> {
    let mut strings = Vec::new(rt.alloc());
    strings.push(Bytes::from_vec(b"queens ".to_vec(rt.alloc())?))?;
    Ok(strings)
}

#[test]
fn shared_parts_are_copied(rt: HostRuntime) -> Result<(), Fail> {
    let op = OpInfo {
        name: Name(0),
        default: true,
    };
    let shared = Shared {
        names: Names::new(rt.alloc()),
        strings: one_string(&rt)?,
        pairs: [(Const::Fix(1), Const::Nil)].to_vec(rt.alloc())?,
        globals: Vec::new(rt.alloc()),
        ops: [op].to_vec(rt.alloc())?,
        size: 3,
    };
    let copy = shared.copy(rt.alloc())?;
    assert_eq!(rt; copy.size, 3);
    assert_eq!(rt;
        copy.pairs.as_slice(),
        [(Const::Fix(1), Const::Nil)].as_slice()
    );
    assert_eq!(rt; copy.ops.as_slice(), [op].as_slice());
    assert_eq!(rt; copy.strings.len(), 1);
    assert_eq!(rt; copy.strings[0].as_slice(), b"queens ".as_slice());
    Ok(())
}
