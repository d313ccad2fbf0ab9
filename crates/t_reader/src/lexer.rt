//! From bytes to tokens.

ghost use Rattle.std.specs.Prelude.{◌≡◌, ◌<◌, ◌≤◌, ◌+◌, ◌*◌, ◌^◌, ◌&&◌, Bool, List, ℕ, length, take, drop, min, IsTrue, false};
ghost use Rattle.std.specs.List.{list_all};
ghost use Rattle.t_reader.specs.declared.token.Word.{Word};
ghost use Rattle.t_reader.specs.Tokens.{token, atom, bad, is_blank, is_digit, is_letter, is_constituent, is_string_byte, is_word, behind_blanks, run_len, is_number, value_of, fix_word, plain_word, signed_word, atom_word, atom_token, truth_token, string_token, char_of, char_run, char_token, hash_token, first_token, token_at, Moves, Fits};

use crate::fault::ReadKind;
use crate::token::{Atom, Token, Word};
use t_base::Span;

fn token(word: Word, start: u32, end: u32) -> Token
    ensures { result ≡ token word start end }
{
    Token {
        word,
        span: Span { start, end },
    }
}

fn atom(atom: Atom, start: u32, end: u32) -> Token
    ensures { result ≡ token (Word.Atom atom) start end }
{
    token(Word::Atom(atom), start, end)
}

fn bad(kind: ReadKind, start: u32, end: u32) -> Token
    ensures { result ≡ bad kind start end }
{
    token(Word::Bad(kind), start, end)
}

fn is_blank(b: u8) -> bool
    ensures { result ≡ is_blank b }
{
    b == b'\t' || b == b'\n' || b == b'\r' || b == b' '
}

fn is_digit(b: u8) -> bool
    ensures { result ≡ is_digit b }
{
    b'0' <= b && b <= b'9'
}

fn is_letter(b: u8) -> bool
    ensures { result ≡ is_letter b }
{
    (b'A' <= b && b <= b'Z') || (b'a' <= b && b <= b'z')
}

fn is_constituent(b: u8) -> bool
    ensures { result ≡ is_constituent b }
{
    is_letter(b)
        || is_digit(b)
        || b == b'!'
        || b == b'$'
        || b == b'%'
        || b == b'&'
        || b == b'*'
        || b == b'+'
        || b == b'-'
        || b == b'/'
        || b == b':'
        || b == b'<'
        || b == b'='
        || b == b'>'
        || b == b'?'
        || b == b'@'
        || b == b'^'
        || b == b'_'
        || b == b'~'
        || b == b'.'
}

fn is_string_byte(b: u8) -> bool
    ensures { result ≡ is_string_byte b }
{
    (b' ' <= b && b <= b'~') || b == b'\t' || b == b'\n'
}

/// Whether the bytes are the word, in either case of letter.
#[tactic(auto, unfolding(crate::specs::Tokens::is_word))]
fn is_word(bytes: &[u8], word: &[u8]) -> bool
    ensures { result ≡ is_word bytes.now word.now }
{
    let mut bytes = bytes;
    let mut word = word;
    while let ([b, more @ ..], [w, rest @ ..]) = (bytes, word) {
        if b.to_ascii_lowercase() != *w {
            return false;
        }
        bytes = more;
        word = rest;
    }
    bytes.is_empty() && word.is_empty()
}

/// What stands behind blanks and comments.
#[tactic(auto, unfolding(crate::specs::Tokens::behind_blanks))]
fn behind_blanks(bytes: &[u8]) -> &[u8]
    ensures rest { result.now ≡ behind_blanks false bytes.now }
    ensures within { length result.now ≤ length bytes.now }
{
    let mut rest = bytes;
    let mut inside = false;
    while let [b, more @ ..] = rest {
        if inside {
            inside = *b != b'\n';
        } else if *b == b';' {
            inside = true;
        } else if !is_blank(*b) {
            return rest;
        }
        rest = more;
    }
    rest
}

/// How long the run of constituents at the front is.
#[tactic(auto, unfolding(crate::specs::Tokens::run_len))]
fn run_len(bytes: &[u8]) -> usize
    ensures value { result ≡ run_len bytes.now }
    ensures within { result ≤ length bytes.now }
{
    bytes.iter().take_while(|b| is_constituent(**b)).count()
}

fn run(bytes: &[u8]) -> &[u8]
    ensures run { result.now ≡ take (run_len bytes.now) bytes.now }
    ensures within { length result.now ≤ length bytes.now }
{
    &bytes[..run_len(bytes)]
}

fn are_digits(bytes: &[u8]) -> bool
    ensures { result ≡ list_all is_digit bytes.now }
{
    bytes.iter().all(|b| is_digit(*b))
}

fn is_number(bytes: &[u8]) -> bool
    ensures { result ≡ is_number bytes.now }
{
    !bytes.is_empty() && are_digits(bytes)
}

/// The number of the digits, or 2^30 where it is greater.
fn value_of(digits: &[u8]) -> u32
    ensures { result ≡ min (value_of digits.now) (2 ^ 30) }
{
    let mut value = 0u64;
    for d in digits {
        value = (10 * value + u64::from(d.saturating_sub(b'0'))).min(1 << 30);
    }
    value as u32
}

/// The fixnum of a number that has been cut to 2^30.
#[tactic(auto, unfolding(crate::specs::Tokens::fix_word))]
fn fix_word(negative: bool, n: u32) -> Word
    requires { n ≤ 2 ^ 30 }
    ensures { (m : ℕ) → n ≡ min m (2 ^ 30) → result ≡ fix_word negative m }
{
    if negative {
        if n <= 536_870_912 {
            Word::Atom(Atom::Fix(-(n as i32)))
        } else {
            Word::Bad(ReadKind::FixnumRange)
        }
    } else if n < 536_870_912 {
        Word::Atom(Atom::Fix(n as i32))
    } else {
        Word::Bad(ReadKind::FixnumRange)
    }
}

#[tactic(auto, unfolding(crate::specs::Tokens::plain_word))]
fn plain_word(run: &[u8]) -> Word
    ensures { result ≡ plain_word run.now }
{
    if is_word(run, b".") {
        Word::Dot
    } else if is_word(run, b"nil") {
        Word::Atom(Atom::Nil)
    } else {
        Word::Atom(Atom::Sym)
    }
}

fn signed_word(negative: bool, digits: &[u8], run: &[u8]) -> Word
    ensures { result ≡ signed_word negative digits.now run.now }
{
    if is_number(digits) {
        fix_word(negative, value_of(digits))
    } else {
        plain_word(run)
    }
}

#[tactic(auto, unfolding(crate::specs::Tokens::atom_word))]
fn atom_word(run: &[u8]) -> Word
    ensures { result ≡ atom_word run.now }
{
    match run {
        [] => plain_word(run),
        [b, digits @ ..] => {
            if *b == b'+' {
                signed_word(false, digits, run)
            } else if *b == b'-' {
                signed_word(true, digits, run)
            } else {
                signed_word(false, run, run)
            }
        }
    }
}

fn atom_token(at: u32, run: &[u8]) -> Token
    requires { at + length run.now < 2 ^ 32 }
    ensures { result ≡ atom_token at run.now }
{
    token(atom_word(run), at, at + run.len() as u32)
}

/// The string whose mark stands at `start`, from the byte behind the mark on.
#[tactic(auto, unfolding(crate::specs::Tokens::string_token))]
fn string_token(start: u32, bytes: &[u8]) -> Token
    requires { start + 1 + length bytes.now < 2 ^ 32 }
    ensures { result ≡ string_token start (start + 1) false bytes.now }
{
    let mut here = start + 1;
    let mut rest = bytes;
    let mut escaped = false;
    while let [b, more @ ..] = rest {
        if escaped {
            if *b != b'"' && *b != b'\\' {
                return bad(ReadKind::BadString, here - 1, here);
            }
            escaped = false;
        } else if *b == b'"' {
            return atom(Atom::Str, start, here + 1);
        } else if *b == b'\\' {
            escaped = true;
        } else if !is_string_byte(*b) {
            return bad(ReadKind::BadString, here, here + 1);
        }
        here += 1;
        rest = more;
    }
    bad(ReadKind::Unclosed, start, here)
}

#[tactic(auto, unfolding(crate::specs::Tokens::char_of))]
fn char_of(run: &[u8]) -> Option<u8>
    ensures { result ≡ char_of run.now }
{
    if let [c] = run {
        return Some(*c);
    }
    if is_word(run, b"space") {
        Some(b' ')
    } else if is_word(run, b"newline") {
        Some(b'\n')
    } else if is_word(run, b"tab") {
        Some(b'\t')
    } else {
        None
    }
}

/// The run behind #\, or its one byte that is no constituent.
fn char_run(bytes: &[u8]) -> &[u8]
    requires { 0 < length bytes.now }
    ensures run { result.now ≡ char_run bytes.now }
    ensures within { length result.now ≤ length bytes.now }
{
    &bytes[..run_len(bytes).max(1)]
}

#[tactic(auto, unfolding(crate::specs::Tokens::char_token))]
fn char_token(at: u32, bytes: &[u8]) -> Token
    requires { at + 2 + length bytes.now < 2 ^ 32 }
    ensures { result ≡ char_token at bytes.now }
{
    match bytes {
        [c, ..] => {
            if b'!' <= *c && *c <= b'~' {
                let run = char_run(bytes);
                match char_of(run) {
                    Some(code) => atom(Atom::Char(code), at, at + 2 + run.len() as u32),
                    None => bad(ReadKind::BadHash, at, at + 1),
                }
            } else {
                bad(ReadKind::BadHash, at, at + 1)
            }
        }
        [] => bad(ReadKind::BadHash, at, at + 1),
    }
}

fn truth_token(at: u32, run: &[u8]) -> Token
    requires { at + 2 < 2 ^ 32 }
    ensures { result ≡ truth_token at run.now }
{
    if is_word(run, b"t") {
        atom(Atom::True, at, at + 2)
    } else if is_word(run, b"f") {
        atom(Atom::Nil, at, at + 2)
    } else {
        bad(ReadKind::BadHash, at, at + 1)
    }
}

#[tactic(auto, unfolding(crate::specs::Tokens::hash_token))]
fn hash_token(at: u32, bytes: &[u8]) -> Token
    requires { at + 1 + length bytes.now < 2 ^ 32 }
    ensures { result ≡ hash_token at bytes.now }
{
    match bytes {
        [] => bad(ReadKind::BadHash, at, at + 1),
        [b, more @ ..] => {
            if *b == b'\\' {
                char_token(at, more)
            } else {
                truth_token(at, run(bytes))
            }
        }
    }
}

#[tactic(auto, unfolding(crate::specs::Tokens::first_token))]
fn first_token(at: u32, bytes: &[u8]) -> Token
    requires { at + length bytes.now < 2 ^ 32 }
    ensures { result ≡ first_token at bytes.now }
{
    match bytes {
        [] => token(Word::End, at, at),
        [b, more @ ..] => match *b {
            b'(' => token(Word::Open, at, at + 1),
            b')' => token(Word::Close, at, at + 1),
            b'\'' => token(Word::Quote, at, at + 1),
            b'"' => string_token(at, more),
            b'#' => hash_token(at, more),
            _ => {
                if is_constituent(*b) {
                    atom_token(at, run(bytes))
                } else {
                    bad(ReadKind::BadByte, at, at + 1)
                }
            }
        },
    }
}

#[tactic(auto, unfolding(crate::specs::Tokens::token_at))]
fn found_token(text: &[u8], from: usize) -> Token
    requires from_in_text { from ≤ length text.now }
    requires small { length text.now < 2 ^ 32 }
    ensures { result ≡ token_at text.now from }
{
    let rest = behind_blanks(&text[from..]);
    let at = (text.len() - rest.len()) as u32;
    first_token(at, rest)
}

/// The first token from `from` on.
pub fn token_at(text: &[u8], from: usize) -> Token
    requires from_in_text { from ≤ length text.now }
    requires small { length text.now < 2 ^ 32 }
    ensures token { result ≡ token_at text.now from }
    ensures moves { Moves from (length text.now) result }
    ensures fits { Fits text.now result }
{
    found_token(text, from)
}
