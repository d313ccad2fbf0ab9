// How many operands each builtin takes.
ghost use Rattle.std.specs.Prelude.{◌≡◌};
ghost use Rattle.t_prim.specs.Table.{arity_of};

use t_base::Prim;

/// How many operands the builtin takes, 0 to 3. A call with another count is fault 2.
pub fn arity(p: Prim) -> u8
    ensures { result ≡ arity_of p }
{
    match p {
        Prim::Newline => 0,
        Prim::Add
        | Prim::Sub
        | Prim::Mul
        | Prim::Quotient
        | Prim::Remainder
        | Prim::NumEq
        | Prim::NumLt
        | Prim::NumGt
        | Prim::NumLe
        | Prim::NumGe
        | Prim::Eq
        | Prim::Cons
        | Prim::SetCar
        | Prim::SetCdr
        | Prim::Vref
        | Prim::StringElt
        | Prim::CharEq
        | Prim::CharLt => 2,
        Prim::SetVref => 3,
        Prim::Inc
        | Prim::Dec
        | Prim::IsZero
        | Prim::IsNegative
        | Prim::IsPositive
        | Prim::Not
        | Prim::IsNull
        | Prim::IsPair
        | Prim::IsAtom
        | Prim::IsList
        | Prim::IsFixnum
        | Prim::IsChar
        | Prim::IsString
        | Prim::IsSymbol
        | Prim::IsVector
        | Prim::IsProcedure
        | Prim::Car
        | Prim::Cdr
        | Prim::MakeVector
        | Prim::VectorLength
        | Prim::StringLength
        | Prim::SymbolToString
        | Prim::CharToAscii
        | Prim::AsciiToChar
        | Prim::PutFixnum
        | Prim::PutChar
        | Prim::PutString
        | Prim::Error => 1,
    }
}
