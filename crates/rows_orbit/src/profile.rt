//! Texts whose forms are refused, over a limit, or counted.

use crate::calls::{Seen, check_over, folder_of, has_image, sink, unwritten};
use orbit_cli::Status;
use std::alloc::Global;
use std::process::Abort;
use std::test::Fail;
use t_ports::memory::MemSink;

static CHECK: [&str; 2] = ["check", "a.t"];

static COMPILE: [&str; 3] = ["compile", "a.t", "a.img"];

static GO: [&str; 6] = ["go", "a.t", "a.img", "64", "1024", "1099511627776"];

fn done(out: &'static [u8]) -> Seen {
    Seen {
        out,
        err: b"",
        status: Status::Done,
    }
}

fn refused(err: &'static [u8]) -> Seen {
    Seen {
        out: b"",
        err,
        status: Status::SourceRefused,
    }
}

fn over(err: &'static [u8]) -> Seen {
    Seen {
        out: b"",
        err,
        status: Status::Limit,
    }
}

/// Checks the text, and sees that no image is kept.
fn check_text(rt: &impl Abort, alloc: Global, text: &[u8], seen: Seen) -> Result<(), Fail> {
    let mut folder = folder_of(alloc, "a.t", text, &[])?;
    check_over(rt, alloc, &CHECK, &mut folder, &mut sink(alloc)?, seen)?;
    assert_eq!(rt; has_image(alloc, &mut folder), false);
    Ok(())
}

/// The same with each command that takes a text.
fn check_refused(rt: &impl Abort, alloc: Global, text: &[u8], seen: Seen) -> Result<(), Fail> {
    check_text(rt, alloc, text, seen)?;
    for words in [COMPILE.as_slice(), &GO] {
        let mut folder = folder_of(alloc, "a.t", text, &[])?;
        check_over(rt, alloc, words, &mut folder, &mut sink(alloc)?, seen)?;
        assert_eq!(rt; has_image(alloc, &mut folder), false);
    }
    Ok(())
}

/// Texts with a form that is refused, and the line of each.
static REFUSED: [(&[u8], &[u8]); 12] = [
    (b"(if)", b"a.t:1:1: S1 BadForm\n"),
    (b"(define x 1) (define x 2)", b"a.t:1:22: S2 Twice\n"),
    (b"(lambda (x x) 1)", b"a.t:1:12: S3 ParamTwice\n"),
    (
        b"(object nil ((car self) 1))",
        b"a.t:1:15: S4 NotOperation\n",
    ),
    (b"(set (cons 1 2) 3)", b"a.t:1:7: S5 NotSettable\n"),
    (b"(car (define x 1))", b"a.t:1:6: S6 NotTopLevel\n"),
    (b"(set t 1)", b"a.t:1:6: S7 ConstantSet\n"),
    (b"(foo 1)", b"a.t:1:2: S8 FreeName\n"),
    (b"(+ 1 2)\n (foo 1) (if)", b"a.t:2:3: S8 FreeName\n"),
    (b"--5", b"a.t:1:1: S8 FreeName\n"),
    (b"(+ 1 . 2)", b"a.t:1:1: S1 BadForm\n"),
    (b"(foo 1) #q", b"a.t:1:9: R5 BadHash\n"),
];

#[test]
fn forms_that_are_refused(rt: HostRuntime) -> Result<(), Fail> {
    for (text, line) in REFUSED {
        check_refused(&rt, rt.alloc(), text, refused(line))?;
    }
    Ok(())
}

/// The text, then so many times the piece, then the end.
fn repeated(
    alloc: Global,
    start: &[u8],
    count: usize,
    piece: &[u8],
    end: &[u8],
) -> Result<Vec<u8>, Fail> {
    let mut text = start.to_vec(alloc)?;
    for _ in 0..count {
        text.extend_from_slice(piece)?;
    }
    text.extend_from_slice(end)?;
    Ok(text)
}

#[test]
fn a_quoted_list_of_a_thousand_ones(rt: HostRuntime) -> Result<(), Fail> {
    let alloc = rt.alloc();
    let most = repeated(alloc, b"'(", 999, b"1 ", b")")?;
    check_text(&rt, alloc, &most, done(b"nodes 1999 weight 4028049\n"))?;
    let text = repeated(alloc, b"'(", 1000, b"1 ", b")")?;
    let line = b"a.t: L1 FormNodes 2001 over 2000\n";
    check_refused(&rt, alloc, &text, over(line))
}

#[test]
fn a_unit_of_too_much_weight(rt: HostRuntime) -> Result<(), Fail> {
    let alloc = rt.alloc();
    // A form of one node weighs 81: 51,781 of them weigh 4,194,261, and one more is over 4,194,304.
    let most = repeated(alloc, b"", 51781, b"1 ", b"")?;
    check_text(&rt, alloc, &most, done(b"nodes 1 weight 4194261\n"))?;
    let text = repeated(alloc, b"", 51782, b"1 ", b"")?;
    let line = b"a.t: L2 UnitWeight 4194342 over 4194304\n";
    check_refused(&rt, alloc, &text, over(line))
}

#[test]
fn a_call_of_too_many_operands(rt: HostRuntime) -> Result<(), Fail> {
    let alloc = rt.alloc();
    // The call, its operator and the operands.
    let most = repeated(alloc, b"(nil", 20, b" 1", b")")?;
    check_text(&rt, alloc, &most, done(b"nodes 22 weight 900\n"))?;
    let text = repeated(alloc, b"(nil", 21, b" 1", b")")?;
    let line = b"a.t: L3 Params 21 over 20\n";
    check_refused(&rt, alloc, &text, over(line))
}

/// A unit that counts the placements of queens. Its forms have 39, 48, 15 and 21 nodes.
static QUEENS: &[u8] = b"(herald queens)
; counts the placements of n queens
(define (ok? row dist placed)
  (cond ((null? placed) #t)
        ((= (car placed) row) nil)
        ((= (car placed) (+ row dist)) nil)
        ((= (car placed) (- row dist)) nil)
        (else (ok? row (+ dist 1) (cdr placed)))))
(define (queens n)
  (labels (((try row placed left)
            (cond ((= left 0) 1)
                  ((> row n) 0)
                  (else (+ (if (ok? row 1 placed)
                               (try 1 (cons row placed) (- left 1))
                               0)
                           (try (+ row 1) placed left))))))
    (try 1 nil n)))
(define (show n)
  (put-string \"queens \") (put-fixnum n) (put-string \": \")
  (put-fixnum (queens n)) (newline))
(iterate next ((n 1))
  (if (> n 6) 'done (block (show n) (next (+ n 1)))))
";

#[test]
fn the_queens_are_counted(rt: HostRuntime) -> Result<(), Fail> {
    let seen = done(b"nodes 48 weight 6715\n");
    check_text(&rt, rt.alloc(), QUEENS, seen)
}

/// Texts, and the line of their counts.
static COUNTED: [(&[u8], &[u8]); 5] = [
    (b"(+ 1 2 3)", b"nodes 5 weight 169\n"),
    (b"", b"nodes 0 weight 0\n"),
    (b"; nothing\n", b"nodes 0 weight 0\n"),
    (b"(+ 40 2)", b"nodes 3 weight 121\n"),
    (b"()", b"nodes 1 weight 81\n"),
];

#[test]
fn texts_are_counted(rt: HostRuntime) -> Result<(), Fail> {
    for (text, line) in COUNTED {
        check_text(&rt, rt.alloc(), text, done(line))?;
    }
    Ok(())
}

#[test]
fn a_sum_of_three(rt: HostRuntime) -> Result<(), Fail> {
    let alloc = rt.alloc();
    let mut folder = folder_of(alloc, "a.t", b"(+ 1 2 3)", &[])?;
    let seen = done(b"value 6\n");
    check_over(&rt, alloc, &GO, &mut folder, &mut sink(alloc)?, seen)?;
    assert_eq!(rt; has_image(alloc, &mut folder), true);
    Ok(())
}

/// A text of a HERALD alone has no forms, and its value is the empty list.
#[test]
fn a_herald_alone(rt: HostRuntime) -> Result<(), Fail> {
    let alloc = rt.alloc();
    let mut folder = folder_of(alloc, "a.t", b"(herald a)", &[])?;
    let seen = done(b"value ()\n");
    check_over(&rt, alloc, &GO, &mut folder, &mut sink(alloc)?, seen)?;
    assert_eq!(rt; has_image(alloc, &mut folder), true);
    Ok(())
}

/// How much room `out` has, and what it holds when its room is used up.
static ROOMS: [(usize, &[u8]); 3] = [(0, b""), (7, b"nodes 5"), (15, b"nodes 5 weight ")];

#[test]
fn counts_that_are_not_written(rt: HostRuntime) -> Result<(), Fail> {
    let alloc = rt.alloc();
    for (room, held) in ROOMS {
        let mut folder = folder_of(alloc, "a.t", b"(+ 1 2 3)", &[])?;
        let mut out = MemSink::new(alloc, room, Vec::new(alloc))?;
        check_over(&rt, alloc, &CHECK, &mut folder, &mut out, unwritten(held))?;
    }
    Ok(())
}
