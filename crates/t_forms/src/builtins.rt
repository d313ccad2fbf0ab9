//! The names of the builtins.
ghost use Rattle.std.specs.Prelude.{◌≡◌};
ghost use Rattle.std.specs.Str.{bytes_eq};
ghost use Rattle.t_objects.specs.Words.{spelled};
ghost use Rattle.t_forms.specs.Builtins.{number_names, test_names, data_names, output_names, builtin_named};

use t_base::Prim;

/// Whether the text has exactly these bytes.
pub fn is_spelled(text: &[u8], spelling: &[u8]) -> bool
    ensures { result ≡ bytes_eq text.now spelling.now }
{
    text == spelling
}

fn number_of(text: &[u8]) -> Option<Prim>
    ensures { result ≡ spelled number_names text.now }
{
    if is_spelled(text, b"+") {
        Some(Prim::Add)
    } else if is_spelled(text, b"-") {
        Some(Prim::Sub)
    } else if is_spelled(text, b"*") {
        Some(Prim::Mul)
    } else if is_spelled(text, b"quotient") {
        Some(Prim::Quotient)
    } else if is_spelled(text, b"remainder") {
        Some(Prim::Remainder)
    } else if is_spelled(text, b"1+") {
        Some(Prim::Inc)
    } else if is_spelled(text, b"-1+") {
        Some(Prim::Dec)
    } else if is_spelled(text, b"=") {
        Some(Prim::NumEq)
    } else if is_spelled(text, b"<") {
        Some(Prim::NumLt)
    } else if is_spelled(text, b">") {
        Some(Prim::NumGt)
    } else if is_spelled(text, b"<=") {
        Some(Prim::NumLe)
    } else if is_spelled(text, b">=") {
        Some(Prim::NumGe)
    } else {
        None
    }
}

fn test_of(text: &[u8]) -> Option<Prim>
    ensures { result ≡ spelled test_names text.now }
{
    if is_spelled(text, b"zero?") {
        Some(Prim::IsZero)
    } else if is_spelled(text, b"negative?") {
        Some(Prim::IsNegative)
    } else if is_spelled(text, b"positive?") {
        Some(Prim::IsPositive)
    } else if is_spelled(text, b"eq?") {
        Some(Prim::Eq)
    } else if is_spelled(text, b"not") {
        Some(Prim::Not)
    } else if is_spelled(text, b"null?") {
        Some(Prim::IsNull)
    } else if is_spelled(text, b"pair?") {
        Some(Prim::IsPair)
    } else if is_spelled(text, b"atom?") {
        Some(Prim::IsAtom)
    } else if is_spelled(text, b"list?") {
        Some(Prim::IsList)
    } else if is_spelled(text, b"fixnum?") {
        Some(Prim::IsFixnum)
    } else if is_spelled(text, b"char?") {
        Some(Prim::IsChar)
    } else if is_spelled(text, b"string?") {
        Some(Prim::IsString)
    } else if is_spelled(text, b"symbol?") {
        Some(Prim::IsSymbol)
    } else if is_spelled(text, b"vector?") {
        Some(Prim::IsVector)
    } else if is_spelled(text, b"procedure?") {
        Some(Prim::IsProcedure)
    } else {
        None
    }
}

fn data_of(text: &[u8]) -> Option<Prim>
    ensures { result ≡ spelled data_names text.now }
{
    if is_spelled(text, b"cons") {
        Some(Prim::Cons)
    } else if is_spelled(text, b"car") {
        Some(Prim::Car)
    } else if is_spelled(text, b"cdr") {
        Some(Prim::Cdr)
    } else if is_spelled(text, b"make-vector") {
        Some(Prim::MakeVector)
    } else if is_spelled(text, b"vector-length") {
        Some(Prim::VectorLength)
    } else if is_spelled(text, b"vref") {
        Some(Prim::Vref)
    } else if is_spelled(text, b"string-length") {
        Some(Prim::StringLength)
    } else if is_spelled(text, b"string-elt") {
        Some(Prim::StringElt)
    } else if is_spelled(text, b"symbol->string") {
        Some(Prim::SymbolToString)
    } else {
        None
    }
}

fn output_of(text: &[u8]) -> Option<Prim>
    ensures { result ≡ spelled output_names text.now }
{
    if is_spelled(text, b"char->ascii") {
        Some(Prim::CharToAscii)
    } else if is_spelled(text, b"ascii->char") {
        Some(Prim::AsciiToChar)
    } else if is_spelled(text, b"char=") {
        Some(Prim::CharEq)
    } else if is_spelled(text, b"char<") {
        Some(Prim::CharLt)
    } else if is_spelled(text, b"put-fixnum") {
        Some(Prim::PutFixnum)
    } else if is_spelled(text, b"put-char") {
        Some(Prim::PutChar)
    } else if is_spelled(text, b"put-string") {
        Some(Prim::PutString)
    } else if is_spelled(text, b"newline") {
        Some(Prim::Newline)
    } else if is_spelled(text, b"error") {
        Some(Prim::Error)
    } else {
        None
    }
}

/// The builtin with this name. It takes no memory.
pub fn builtin_of(text: &[u8]) -> Option<Prim>
    ensures { result ≡ builtin_named text.now }
{
    match number_of(text) {
        Some(p) => Some(p),
        None => match test_of(text) {
            Some(p) => Some(p),
            None => match data_of(text) {
                Some(p) => Some(p),
                None => output_of(text),
            },
        },
    }
}
