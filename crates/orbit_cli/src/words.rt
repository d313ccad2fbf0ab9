//! The words of a command line.

ghost use Rattle.std.specs.Prelude.{◌≡◌, ◌≤◌, ◌<◌, ◌^◌, map, IfSome, IsTrue};
ghost use Rattle.std.specs.String.{string_bytes};
ghost use Rattle.std.specs.List.{list_all};
ghost use Rattle.std.specs.Char.{is_ascii_digit};
ghost use Rattle.std.specs.Option.{option_map};
ghost use Rattle.m68020_step.specs.Boot.{is_size};
ghost use Rattle.orbit_cli.specs.Words.{is_numeral, digits_value, up_to, number, size, bounds_of, single_command, command_of};
ghost use Rattle.orbit_cli.specs.Command.{AreSizes, HasBounds, view_of};

use m68020_step::Sizes;

/// Most bytes of a heap or a stack.
const MAX_SIZE: u64 = 0x1000_0000;

/// Most instructions that a run is asked for.
const MAX_STEPS: u64 = 0x100_0000_0000;

/// The bounds of a run.
#[derive(Clone, Copy, Debug, PartialEq, Eq)]
pub struct Bounds {
    /// Bytes of heap and stack.
    pub sizes: Sizes,
    /// Most instructions, at most 2^40.
    pub steps: u64,
}

/// What the program is asked for. `src` is the name of a text, `img` that of an image.
#[derive(Drop)]
pub enum Command<'a> {
    /// `compile SRC IMG`.
    Compile {
        src: &'a str,
        img: &'a str,
    },
    /// `run IMG HEAP STACK STEPS`.
    Run {
        img: &'a str,
        bounds: Bounds,
    },
    /// `go SRC IMG HEAP STACK STEPS`.
    Go {
        src: &'a str,
        img: &'a str,
        bounds: Bounds,
    },
    /// `check SRC`.
    Check {
        src: &'a str,
    },
    /// `list IMG`.
    List {
        img: &'a str,
    },
}

fn has_only_digits(word: &[u8]) -> bool
    ensures { result ≡ list_all is_ascii_digit word.now }
{
    word.iter().all(|byte| byte.is_ascii_digit())
}

fn has_digits(word: &[u8]) -> bool
    ensures { result ≡ is_numeral word.now }
{
    !word.is_empty() && has_only_digits(word)
}

// The value of digits, where it is at most the limit.
fn value_up_to(digits: &[u8], limit: u64) -> Option<u64>
    requires { limit ≤ 2 ^ 40 }
    ensures { result ≡ up_to limit (digits_value 0 digits.now) }
{
    let mut value = 0u64;
    let mut rest = digits;
    'digits: while let [digit, after @ ..] = rest {
        value = value * 10 + digit.saturating_sub(b'0') as u64;
        if value > limit {
            return None;
        }
        rest = after;
    }
    Some(value)
}

/// A number up to the limit.
fn read_number(word: &[u8], limit: u64) -> Option<u64>
    requires { limit ≤ 2 ^ 40 }
    ensures { result ≡ number limit word.now }
{
    if has_digits(word) {
        value_up_to(word, limit)
    } else {
        None
    }
}

/// The size of a region.
fn read_size(word: &[u8]) -> Option<u32>
    ensures value { result ≡ size word.now }
    ensures sized { IfSome result (λ n. IsTrue (is_size n)) }
{
    let bytes = read_number(word, MAX_SIZE)?;
    if bytes >= 64 && bytes % 8 == 0 {
        Some(bytes as u32)
    } else {
        None
    }
}

/// The bounds of a run that three words are.
fn read_bounds(heap: &[u8], stack: &[u8], steps: &[u8]) -> Option<Bounds>
    ensures value { result ≡ bounds_of heap.now stack.now steps.now }
    ensures sized { IfSome result (λ b. AreSizes b.sizes) }
{
    let heap = read_size(heap)?;
    let stack = read_size(stack)?;
    let steps = read_number(steps, MAX_STEPS)?;
    Some(Bounds {
        sizes: Sizes { heap, stack },
        steps,
    })
}

// The command of this name on one file.
fn read_single<'a>(name: &str, file: &'a str) -> Option<Command<'a>>
    ensures value { option_map view_of result ≡ single_command name.now file.now }
    ensures sized { IfSome result HasBounds }
{
    if name == "check" {
        Some(Command::Check { src: file })
    } else if name == "list" {
        Some(Command::List { img: file })
    } else {
        None
    }
}

/// The command that the words are, where they are one.
pub fn read_words(words: &[String]) -> Option<Command<'_>>
    ensures value { option_map view_of result ≡ command_of (map string_bytes words.now) }
    ensures sized { IfSome result HasBounds }
{
    match words {
        [name, file] => read_single(name.as_str(), file.as_str()),
        [name, src, img] => {
            if name.as_str() != "compile" {
                return None;
            }
            Some(Command::Compile {
                src: src.as_str(),
                img: img.as_str(),
            })
        }
        [name, img, heap, stack, steps] => {
            if name.as_str() != "run" {
                return None;
            }
            let bounds = read_bounds(heap.as_bytes(), stack.as_bytes(), steps.as_bytes())?;
            Some(Command::Run {
                img: img.as_str(),
                bounds,
            })
        }
        [name, src, img, heap, stack, steps] => {
            if name.as_str() != "go" {
                return None;
            }
            let bounds = read_bounds(heap.as_bytes(), stack.as_bytes(), steps.as_bytes())?;
            Some(Command::Go {
                src: src.as_str(),
                img: img.as_str(),
                bounds,
            })
        }
        _ => None,
    }
}
