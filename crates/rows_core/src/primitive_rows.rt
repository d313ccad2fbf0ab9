// The arities, and what builtins give at constants. The numbers were computed by another program.
use std::process::Abort;
use t_base::Prim;
use t_prim::{Atom, arity, fold};

fn check_arities(rt: &impl Abort, count: u8, builtins: &[Prim]) {
    for p in builtins {
        assert_eq!(rt; arity(*p), count, "{p:?}");
    }
}

#[test]
fn arities(rt: HostRuntime) {
    check_arities(&rt, 0, &[Prim::Newline]);
    check_arities(
        &rt,
        1,
        &[
            Prim::Inc,
            Prim::Dec,
            Prim::IsZero,
            Prim::IsNegative,
            Prim::IsPositive,
        ],
    );
    check_arities(
        &rt,
        1,
        &[
            Prim::Not,
            Prim::IsNull,
            Prim::IsPair,
            Prim::IsAtom,
            Prim::IsList,
            Prim::IsFixnum,
            Prim::IsChar,
        ],
    );
    check_arities(
        &rt,
        1,
        &[
            Prim::IsString,
            Prim::IsSymbol,
            Prim::IsVector,
            Prim::IsProcedure,
            Prim::Car,
            Prim::Cdr,
            Prim::MakeVector,
            Prim::VectorLength,
        ],
    );
    check_arities(
        &rt,
        1,
        &[
            Prim::StringLength,
            Prim::SymbolToString,
            Prim::CharToAscii,
            Prim::AsciiToChar,
            Prim::PutFixnum,
            Prim::PutChar,
            Prim::PutString,
            Prim::Error,
        ],
    );
    check_arities(
        &rt,
        2,
        &[
            Prim::Add,
            Prim::Sub,
            Prim::Mul,
            Prim::Quotient,
            Prim::Remainder,
            Prim::NumEq,
            Prim::NumLt,
            Prim::NumGt,
            Prim::NumLe,
            Prim::NumGe,
        ],
    );
    check_arities(
        &rt,
        2,
        &[
            Prim::Eq,
            Prim::Cons,
            Prim::SetCar,
            Prim::SetCdr,
            Prim::Vref,
            Prim::StringElt,
            Prim::CharEq,
            Prim::CharLt,
        ],
    );
    check_arities(&rt, 3, &[Prim::SetVref]);
}

fn fold_two(rt: &impl Abort, p: Prim, a: Atom, b: Atom) -> Option<Atom> {
    assert!(rt; arity(p) == 2);
    fold(p, &[a, b])
}

fn fold_one(rt: &impl Abort, p: Prim, a: Atom) -> Option<Atom> {
    assert!(rt; arity(p) == 1);
    fold(p, &[a])
}

fn check_numbers(rt: &impl Abort, p: Prim, rows: &[(i32, i32, Option<i32>)]) {
    for (x, y, result) in rows {
        let folded = fold_two(rt, p, Atom::Fix(*x), Atom::Fix(*y));
        assert_eq!(rt; folded, result.map(Atom::Fix), "{p:?} {x} {y}");
    }
}

const LEAST: i32 = -536870912;

const GREATEST: i32 = 536870911;

#[test]
fn sums_and_products(rt: HostRuntime) {
    check_numbers(
        &rt,
        Prim::Add,
        &[
            (40, 2, Some(42)),
            (536870910, 1, Some(GREATEST)),
            (GREATEST, 1, None),
            (LEAST, -1, None),
        ],
    );
    check_numbers(
        &rt,
        Prim::Sub,
        &[
            (1, 2, Some(-1)),
            (LEAST, 1, None),
            (-1, GREATEST, Some(LEAST)),
            (0, LEAST, None),
        ],
    );
    check_numbers(
        &rt,
        Prim::Mul,
        &[
            (-3, 5, Some(-15)),
            (65536, 65536, None),
            (-16384, 32768, Some(LEAST)),
            (16384, 32768, None),
        ],
    );
}

#[test]
fn quotients_and_remainders(rt: HostRuntime) {
    check_numbers(
        &rt,
        Prim::Quotient,
        &[
            (7, 2, Some(3)),
            (7, -2, Some(-3)),
            (-7, 2, Some(-3)),
            (-7, -2, Some(3)),
            (1, 0, None),
        ],
    );
    check_numbers(
        &rt,
        Prim::Quotient,
        &[
            (LEAST, -1, None),
            (LEAST, 1, Some(LEAST)),
            (LEAST, 3, Some(-178956970)),
            (GREATEST, LEAST, Some(0)),
            (LEAST, GREATEST, Some(-1)),
        ],
    );
    check_numbers(
        &rt,
        Prim::Remainder,
        &[
            (7, 2, Some(1)),
            (7, -2, Some(1)),
            (-7, 2, Some(-1)),
            (-7, -2, Some(-1)),
            (1, 0, None),
        ],
    );
    check_numbers(
        &rt,
        Prim::Remainder,
        &[
            (LEAST, -1, Some(0)),
            (LEAST, 3, Some(-2)),
            (GREATEST, LEAST, Some(GREATEST)),
            (LEAST, GREATEST, Some(-1)),
            (0, 0, None),
        ],
    );
}

fn check_order(rt: &impl Abort, p: Prim, less: Atom, same: Atom, greater: Atom) {
    assert_eq!(rt;
        fold_two(rt, p, Atom::Fix(LEAST), Atom::Fix(GREATEST)),
        Some(less),
        "{p:?}"
    );
    assert_eq!(rt;
        fold_two(rt, p, Atom::Fix(-3), Atom::Fix(-3)),
        Some(same),
        "{p:?}"
    );
    assert_eq!(rt;
        fold_two(rt, p, Atom::Fix(2), Atom::Fix(-2)),
        Some(greater),
        "{p:?}"
    );
}

#[test]
fn comparisons(rt: HostRuntime) {
    check_order(&rt, Prim::NumEq, Atom::Nil, Atom::True, Atom::Nil);
    check_order(&rt, Prim::NumLt, Atom::True, Atom::Nil, Atom::Nil);
    check_order(&rt, Prim::NumGt, Atom::Nil, Atom::Nil, Atom::True);
    check_order(&rt, Prim::NumLe, Atom::True, Atom::True, Atom::Nil);
    check_order(&rt, Prim::NumGe, Atom::Nil, Atom::True, Atom::True);
    check_order(&rt, Prim::Eq, Atom::Nil, Atom::True, Atom::Nil);
}

fn check_characters(rt: &impl Abort, rows: &[(Prim, u8, u8, Option<Atom>)]) {
    for (p, c, d, result) in rows {
        assert_eq!(rt;
            fold_two(rt, *p, Atom::Char(*c), Atom::Char(*d)),
            *result,
            "{p:?} {c} {d}"
        );
    }
}

fn check_one(rt: &impl Abort, rows: &[(Prim, Atom, Option<Atom>)]) {
    for (p, a, result) in rows {
        assert_eq!(rt; fold_one(rt, *p, *a), *result, "{p:?} {a:?}");
    }
}

#[test]
fn characters(rt: HostRuntime) {
    check_characters(
        &rt,
        &[
            (Prim::CharEq, 97, 97, Some(Atom::True)),
            (Prim::CharEq, 97, 65, Some(Atom::Nil)),
            (Prim::CharLt, 0, 127, Some(Atom::True)),
        ],
    );
    check_characters(
        &rt,
        &[
            (Prim::CharLt, 97, 97, Some(Atom::Nil)),
            (Prim::Eq, 97, 97, Some(Atom::True)),
            (Prim::Add, 97, 97, None),
        ],
    );
    check_one(
        &rt,
        &[
            (Prim::AsciiToChar, Atom::Fix(0), Some(Atom::Char(0))),
            (Prim::AsciiToChar, Atom::Fix(127), Some(Atom::Char(127))),
        ],
    );
    check_one(
        &rt,
        &[
            (Prim::AsciiToChar, Atom::Fix(128), None),
            (Prim::AsciiToChar, Atom::Fix(-1), None),
            (Prim::CharToAscii, Atom::Char(97), Some(Atom::Fix(97))),
        ],
    );
    check_one(
        &rt,
        &[
            (Prim::CharToAscii, Atom::Fix(97), None),
            (Prim::IsChar, Atom::Char(97), Some(Atom::True)),
            (Prim::IsFixnum, Atom::Char(97), Some(Atom::Nil)),
        ],
    );
}

#[test]
fn one_operand(rt: HostRuntime) {
    check_one(
        &rt,
        &[
            (Prim::Inc, Atom::Fix(GREATEST), None),
            (Prim::Inc, Atom::Fix(-1), Some(Atom::Fix(0))),
            (Prim::Dec, Atom::Fix(LEAST), None),
        ],
    );
    check_one(
        &rt,
        &[
            (Prim::IsZero, Atom::Fix(0), Some(Atom::True)),
            (Prim::IsNegative, Atom::Fix(0), Some(Atom::Nil)),
            (Prim::IsPositive, Atom::Fix(1), Some(Atom::True)),
        ],
    );
    check_one(
        &rt,
        &[
            (Prim::Not, Atom::Nil, Some(Atom::True)),
            (Prim::Not, Atom::Fix(0), Some(Atom::Nil)),
            (Prim::IsNull, Atom::True, Some(Atom::Nil)),
            (Prim::IsZero, Atom::Nil, None),
        ],
    );
    check_one(
        &rt,
        &[
            (Prim::IsPair, Atom::Nil, Some(Atom::Nil)),
            (Prim::IsAtom, Atom::Nil, Some(Atom::True)),
            (Prim::IsList, Atom::Nil, Some(Atom::True)),
            (Prim::IsProcedure, Atom::True, Some(Atom::Nil)),
        ],
    );
}

// They fault, touch the store or the output, or give what no atom is.
#[test]
fn what_does_not_fold(rt: HostRuntime) {
    check_one(
        &rt,
        &[
            (Prim::Car, Atom::Fix(5), None),
            (Prim::MakeVector, Atom::Fix(3), None),
            (Prim::PutFixnum, Atom::Fix(3), None),
        ],
    );
    check_one(
        &rt,
        &[
            (Prim::Error, Atom::Fix(42), None),
            (Prim::PutChar, Atom::Char(97), None),
            (Prim::StringLength, Atom::Nil, None),
        ],
    );
    assert_eq!(rt; fold_two(&rt, Prim::Cons, Atom::Nil, Atom::Nil), None);
    assert!(rt; arity(Prim::Newline) == 0);
    assert_eq!(rt; fold(Prim::Newline, &[]), None);
}
