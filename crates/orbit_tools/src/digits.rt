//! Numbers as they are printed.

ghost use Rattle.std.specs.Prelude.{◌≡◌, ◌<◌, ◌++◌, OnOk};
ghost use Rattle.std.specs.Fmt.{signed_decimal};
ghost use Rattle.orbit_tools.specs.Text.{hex_digit, hex_byte, hex, address, immediate};
ghost use Rattle.orbit_tools.specs.Listing.{words};

use itoa::Buffer;
use t_base::Memory;

fn digit_of(digit: u8) -> u8
    requires { digit < 16 }
    ensures { result ≡ hex_digit digit }
{
    if digit < 10 { b'0' + digit } else { 55 + digit }
}

fn digits_of(byte: u8) -> [u8; 2]
    ensures { result ≡ hex_byte byte }
{
    [digit_of(byte / 16), digit_of(byte % 16)]
}

/// Two digits of base 16 for each byte.
pub fn put_hex(out: &mut Vec<u8>, bytes: &[u8]) -> Result<(), Memory>
    ensures { OnOk result (out.new.items ≡ out.old.items ++ hex bytes.now) }
{
    for byte in bytes {
        out.extend_from_slice(&digits_of(*byte))?;
    }
    Ok(())
}

/// The eight digits of an address.
#[tactic(auto, unfolding(crate::specs::Text::address))]
pub fn put_address(out: &mut Vec<u8>, at: u32) -> Result<(), Memory>
    ensures { OnOk result (out.new.items ≡ out.old.items ++ address at) }
{
    put_hex(out, &at.to_be_bytes())
}

/// Words, with a blank behind each.
pub fn put_words(out: &mut Vec<u8>, bytes: &[u8]) -> Result<(), Memory>
    ensures { OnOk result (out.new.items ≡ out.old.items ++ words bytes.now) }
{
    let mut rest = bytes;
    'words: while let [a, b, after @ ..] = rest {
        put_hex(out, &[*a, *b])?;
        out.push(b' ')?;
        rest = after;
    }
    Ok(())
}

/// A number with its sign.
pub fn put_number(out: &mut Vec<u8>, number: i32) -> Result<(), Memory>
    ensures { OnOk result (out.new.items ≡ out.old.items ++ signed_decimal number) }
{
    let mut buffer = Buffer::new();
    out.extend_from_slice(buffer.format(number).as_bytes())?;
    Ok(())
}

/// Immediate data.
pub fn put_immediate(out: &mut Vec<u8>, value: i32) -> Result<(), Memory>
    ensures { OnOk result (out.new.items ≡ out.old.items ++ immediate value) }
{
    out.push(b'#')?;
    put_number(out, value)
}
