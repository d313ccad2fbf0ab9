//! Texts and what they give.

use crate::calls::{Row, check};
use orbit_cli::Status;
use std::test::Fail;

const MOST: &str = "1099511627776";

fn value(text: &'static [u8], out: &'static [u8]) -> Row {
    Row {
        text,
        steps: MOST,
        out,
        err: b"",
        status: Status::Done,
    }
}

fn overflow(text: &'static [u8]) -> Row {
    Row {
        text,
        steps: MOST,
        out: b"",
        err: b"fault 7 FixnumOverflow\n",
        status: Status::SourceFault,
    }
}

fn unbuilt(text: &'static [u8]) -> Row {
    Row {
        text,
        steps: MOST,
        out: b"",
        err: b"not built yet\n",
        status: Status::Unbuilt,
    }
}

static VALUES: [(&[u8], &[u8]); 19] = [
    (b"(+ 40 2)", b"value 42\n"),
    (b"7 (+ 1 (+ 2 3))", b"value 6\n"),
    (b"", b"value ()\n"),
    (b"(+ 536870910 1)", b"value 536870911\n"),
    (b"(+ -536870911 -1)", b"value -536870912\n"),
    (b"-0", b"value 0\n"),
    (b"007", b"value 7\n"),
    (b"  000000001\n", b"value 1\n"),
    (b"\t(\n+\r\n40\t2\x20)\r", b"value 42\n"),
    (b"(+(+ 1 2)(+ 3 4))", b"value 10\n"),
    (b"1(+ 2 3)4 5", b"value 5\n"),
    (b"536870911 -536870912", b"value -536870912\n"),
    (b"0000000001", b"value 1\n"),
    (b"+5", b"value 5\n"),
    (b"1 ; one", b"value 1\n"),
    (b"(+)", b"value 0\n"),
    (b"(+ 1)", b"value 1\n"),
    (b"(+ 1 2 3)", b"value 6\n"),
    (b"'1", b"value 1\n"),
];

#[test]
fn texts_have_their_values(rt: HostRuntime) -> Result<(), Fail> {
    for (text, out) in VALUES {
        check(&rt, rt.alloc(), value(text, out), true)?;
    }
    Ok(())
}

static FAULTS: [&[u8]; 4] = [
    b"(+ 536870911 1)",
    b"(+ -536870912 -1)",
    b"(+ (+ 536870911 1) (+ -536870912 -1))",
    b"1 (+ (+ 536870911 1) 2) 3",
];

#[test]
fn overflow_is_fault_seven(rt: HostRuntime) -> Result<(), Fail> {
    for text in FAULTS {
        check(&rt, rt.alloc(), overflow(text), true)?;
    }
    Ok(())
}

static UNBUILT: [&[u8]; 7] = [
    b"(- 1 2)",
    b"-",
    b"(+1 2)",
    b"()",
    b"\"a\"",
    b"(+ 1 2) #\\a",
    b"(define x 1)",
];

#[test]
fn other_texts_are_not_built(rt: HostRuntime) -> Result<(), Fail> {
    for text in UNBUILT {
        check(&rt, rt.alloc(), unbuilt(text), false)?;
    }
    Ok(())
}

static LIMITED: [Row; 3] = [
    Row {
        text: b"(+ 40 2)",
        steps: "0",
        out: b"",
        err: b"step limit: 0\n",
        status: Status::StepLimit,
    },
    Row {
        text: b"(+ 40 2)",
        steps: "0000001",
        out: b"",
        err: b"step limit: 1\n",
        status: Status::StepLimit,
    },
    Row {
        text: b"(+ 40 2)",
        steps: "100",
        out: b"value 42\n",
        err: b"",
        status: Status::Done,
    },
];

#[test]
fn a_run_ends_at_its_limit(rt: HostRuntime) -> Result<(), Fail> {
    for row in LIMITED {
        check(&rt, rt.alloc(), row, true)?;
    }
    Ok(())
}

/// Texts with a fault of the grammar, and the line of each.
static REFUSED: [(&[u8], &[u8]); 6] = [
    (b"536870912", b"a.t:1:1: R4 FixnumRange\n"),
    (b"1\n -536870913", b"a.t:2:2: R4 FixnumRange\n"),
    (b"(+ 1 2", b"a.t:1:1: R2 Unclosed\n"),
    (b"(+ 1 2))", b"a.t:1:8: R3 ExtraClose\n"),
    (b"1\x0b2", b"a.t:1:2: R1 BadByte\n"),
    (b"#q", b"a.t:1:1: R5 BadHash\n"),
];

fn refused(text: &'static [u8], err: &'static [u8]) -> Row {
    Row {
        text,
        steps: MOST,
        out: b"",
        err,
        status: Status::SourceRefused,
    }
}

#[test]
fn faults_of_the_grammar_are_refused(rt: HostRuntime) -> Result<(), Fail> {
    for (text, err) in REFUSED {
        check(&rt, rt.alloc(), refused(text, err), false)?;
    }
    Ok(())
}
