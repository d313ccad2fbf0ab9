//! The reserved words.
ghost use Rattle.std.specs.Prelude.{◌≡◌};
ghost use Rattle.std.specs.Str.{bytes_eq};
ghost use Rattle.t_objects.specs.Words.{word_named};

/// A reserved word: it can't be bound, defined or used as a variable. The forms are those of The T Manual as far as this profile
/// has them.
#[derive(Clone, Copy, PartialEq, Eq, Debug)]
pub enum Word {
    Quote,
    Lambda,
    If,
    Cond,
    And,
    Or,
    Case,
    Block,
    Let,
    LetStar,
    Labels,
    Iterate,
    Do,
    Set,
    Lset,
    Define,
    Catch,
    Object,
    DefineOperation,
    Locative,
    /// `else`, of a last clause
    Else,
    /// `=>`, of a clause of COND
    Arrow,
}

fn is_spelled(text: &[u8], spelling: &[u8]) -> bool
    ensures { result ≡ bytes_eq text.now spelling.now }
{
    text == spelling
}

/// The reserved word that is written so. It takes no memory.
pub fn word_of(text: &[u8]) -> Option<Word>
    ensures { result ≡ word_named text.now }
{
    if is_spelled(text, b"quote") {
        Some(Word::Quote)
    } else if is_spelled(text, b"lambda") {
        Some(Word::Lambda)
    } else if is_spelled(text, b"if") {
        Some(Word::If)
    } else if is_spelled(text, b"cond") {
        Some(Word::Cond)
    } else if is_spelled(text, b"and") {
        Some(Word::And)
    } else if is_spelled(text, b"or") {
        Some(Word::Or)
    } else if is_spelled(text, b"case") {
        Some(Word::Case)
    } else if is_spelled(text, b"block") {
        Some(Word::Block)
    } else if is_spelled(text, b"let") {
        Some(Word::Let)
    } else if is_spelled(text, b"let*") {
        Some(Word::LetStar)
    } else if is_spelled(text, b"labels") {
        Some(Word::Labels)
    } else if is_spelled(text, b"iterate") {
        Some(Word::Iterate)
    } else if is_spelled(text, b"do") {
        Some(Word::Do)
    } else if is_spelled(text, b"set") {
        Some(Word::Set)
    } else if is_spelled(text, b"lset") {
        Some(Word::Lset)
    } else if is_spelled(text, b"define") {
        Some(Word::Define)
    } else if is_spelled(text, b"catch") {
        Some(Word::Catch)
    } else if is_spelled(text, b"object") {
        Some(Word::Object)
    } else if is_spelled(text, b"define-operation") {
        Some(Word::DefineOperation)
    } else if is_spelled(text, b"locative") {
        Some(Word::Locative)
    } else if is_spelled(text, b"else") {
        Some(Word::Else)
    } else if is_spelled(text, b"=>") {
        Some(Word::Arrow)
    } else {
        None
    }
}
