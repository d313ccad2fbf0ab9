// What the builtins that only compute give.
ghost use Rattle.std.specs.Prelude.{◌≡◌, false, [], ◌∷◌, length, if◌then◌else◌, is_some, option_and_then, unsigned_abs, int_div, int_rem};
ghost use Rattle.t_prim.specs.Values.{CharV};
ghost use Rattle.t_prim.specs.Kinds.{fixnum_of, char_of};
ghost use Rattle.t_prim.specs.Operands.{Gives, number, truth_of, unless_zero, with_ascii};
ghost use Rattle.t_prim.specs.Table.{arity_of};
ghost use Rattle.t_prim.specs.Atoms.{IsFold, atom_of, atom_of_val, val_of_atom};
ghost use Rattle.t_prim.specs.declared.atoms.Atom.TheVariants.{Fix, Char};

use crate::Atom;
use t_base::Prim;

const LEAST: i32 = -536870912;

const GREATEST: i32 = 536870911;

fn is_character(a: Atom) -> bool
    ensures { result ≡ is_some (char_of (val_of_atom a)) }
{
    match a {
        Atom::Char(_) => true,
        _ => false,
    }
}

fn truth(b: bool) -> Atom
    ensures { Some result ≡ atom_of_val (truth_of b) }
{
    if b { Atom::True } else { Atom::Nil }
}

fn fixnum(n: i32) -> Option<Atom>
    ensures { result ≡ atom_of (number n) }
{
    if n >= LEAST && n <= GREATEST {
        Some(Atom::Fix(n))
    } else {
        None
    }
}

// The number, where the exact one fits.
fn exact(n: Option<i32>) -> Option<Atom>
    ensures { result ≡ option_and_then (λ x. atom_of (number x)) n }
{
    match n {
        Some(x) => fixnum(x),
        None => None,
    }
}

fn quotient(x: i32, y: i32) -> Option<Atom>
    ensures { result ≡ atom_of (unless_zero y (number (int_div x y))) }
{
    exact(x.checked_div(y))
}

fn remainder(x: i32, y: i32) -> Option<Atom>
    ensures { result ≡ atom_of (unless_zero y (number (int_rem x y))) }
{
    if y == 0 {
        return None;
    }
    fixnum(x.wrapping_rem(y))
}

fn ascii(x: i32) -> Option<Atom>
    ensures { result ≡ atom_of (with_ascii x (λ c. Gives (CharV c))) }
{
    if x >= 0 && x < 128 {
        Some(Atom::Char(x as u8))
    } else {
        None
    }
}

// A builtin of two fixnums.
fn fold_numbers(p: Prim, x: i32, y: i32) -> Option<Atom>
    ensures { IsFold p (Fix x ∷ Fix y ∷ []) result }
{
    match p {
        Prim::Add => exact(x.checked_add(y)),
        Prim::Sub => exact(x.checked_sub(y)),
        Prim::Mul => exact(x.checked_mul(y)),
        Prim::Quotient => quotient(x, y),
        Prim::Remainder => remainder(x, y),
        Prim::NumEq => Some(truth(x == y)),
        Prim::NumLt => Some(truth(x < y)),
        Prim::NumGt => Some(truth(x > y)),
        Prim::NumLe => Some(truth(x <= y)),
        Prim::NumGe => Some(truth(x >= y)),
        Prim::Eq => Some(truth(x == y)),
        _ => None,
    }
}

// A builtin of two characters.
fn fold_chars(p: Prim, c: u8, d: u8) -> Option<Atom>
    ensures { IsFold p (Char c ∷ Char d ∷ []) result }
{
    match p {
        Prim::CharEq => Some(truth(c == d)),
        Prim::CharLt => Some(truth(c < d)),
        Prim::Eq => Some(truth(c == d)),
        _ => None,
    }
}

fn fold_two(p: Prim, a: Atom, b: Atom) -> Option<Atom>
    ensures { IsFold p (a ∷ b ∷ []) result }
{
    match (a, b) {
        (Atom::Fix(x), Atom::Fix(y)) => fold_numbers(p, x, y),
        (Atom::Char(c), Atom::Char(d)) => fold_chars(p, c, d),
        _ => {
            if p == Prim::Eq {
                Some(truth(a == b))
            } else {
                None
            }
        }
    }
}

// A builtin of one fixnum.
fn fold_number(p: Prim, x: i32) -> Option<Atom>
    ensures { IsFold p (Fix x ∷ []) result }
{
    match p {
        Prim::Inc => exact(x.checked_add(1)),
        Prim::Dec => exact(x.checked_sub(1)),
        Prim::IsZero => Some(truth(x == 0)),
        Prim::IsNegative => Some(truth(x < 0)),
        Prim::IsPositive => Some(truth(x > 0)),
        Prim::AsciiToChar => ascii(x),
        Prim::IsFixnum | Prim::IsAtom => Some(Atom::True),
        Prim::Not | Prim::IsNull | Prim::IsList | Prim::IsPair | Prim::IsChar => Some(Atom::Nil),
        Prim::IsString | Prim::IsSymbol | Prim::IsVector | Prim::IsProcedure => Some(Atom::Nil),
        _ => None,
    }
}

// A builtin of one atom that isn't a fixnum.
fn fold_other(p: Prim, a: Atom) -> Option<Atom>
    requires { is_some (fixnum_of (val_of_atom a)) ≡ false }
    ensures { IsFold p (a ∷ []) result }
{
    match p {
        Prim::CharToAscii => match a {
            Atom::Char(c) => Some(Atom::Fix(i32::from(c))),
            _ => None,
        },
        Prim::IsAtom => Some(Atom::True),
        Prim::IsChar => Some(truth(is_character(a))),
        Prim::Not | Prim::IsNull | Prim::IsList => Some(truth(a == Atom::Nil)),
        Prim::IsFixnum | Prim::IsPair => Some(Atom::Nil),
        Prim::IsString | Prim::IsSymbol | Prim::IsVector | Prim::IsProcedure => Some(Atom::Nil),
        _ => None,
    }
}

fn fold_one(p: Prim, a: Atom) -> Option<Atom>
    ensures { IsFold p (a ∷ []) result }
{
    match a {
        Atom::Fix(x) => fold_number(p, x),
        _ => fold_other(p, a),
    }
}

/// What the builtin gives at these operands, as many as its arity. `None` comes exactly where the builtin faults there, touches
/// the store or the output, or gives what no `Atom` is. A result outside the fixnums is a fault, also where an operand is one.
pub fn fold(p: Prim, args: &[Atom]) -> Option<Atom>
    requires { length args.now ≡ arity_of p }
    ensures { IsFold p args.now result }
{
    match args {
        [a] => fold_one(p, *a),
        [a, b] => fold_two(p, *a, *b),
        _ => None,
    }
}
