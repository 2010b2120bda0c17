// The numbers of a line: each stands after one space, as a minus or none and digits.
ghost use Rattle.std.specs.Prelude.{◌≡◌, Some};
ghost use Rattle.session_lines.specs.Fields.{numeral_of, signed_in, unsigned_in};
ghost use Rattle.session_lines.specs.Asked.{FindsFrom, Finds};

use scanning::{after, byte_at, digit, digits};

// A number's sign and size.
#[derive(Clone, Copy)]
pub struct Number {
    pub negative: bool,
    pub size: u64,
}

// A number that is not beyond the greatest.
fn numeral(negative: bool, size: u64) -> Option<Number>
    ensures { result ≡ numeral_of negative size }
{
    if size <= 2147483648 {
        Some(Number { negative, size })
    } else {
        None
    }
}

// The number whose space a text begins with and whose digits another does, and what is left behind the digits.
fn number_from<'a>(negative: bool, text: &[u8], from: &'a [u8]) -> (Option<Number>, &'a [u8])
    ensures { FindsFrom negative text.now from.now result.0 result.1.now }
{
    let run = digits(from, 2147483648);
    if byte_at(text) != b' ' {
        return (None, run.rest);
    }
    if digit(byte_at(from)) {
        (numeral(negative, run.number), run.rest)
    } else {
        (None, run.rest)
    }
}

// The number of the field that a text begins with, if one stands there, and what is left of the text behind the field.
pub fn field(text: &[u8]) -> (Option<Number>, &[u8])
    ensures { Finds text.now result.0 result.1.now }
{
    let from = after(text);
    if byte_at(from) == b'-' {
        number_from(true, text, after(from))
    } else {
        number_from(false, text, from)
    }
}

// The number itself, if it has room in 64 bits.
fn signed(n: Number) -> Option<i64>
    ensures { result ≡ signed_in 9223372036854775807 9223372036854775807 (Some n) }
{
    let size = i64::try_from(n.size).ok()?;
    if n.negative { Some(-size) } else { Some(size) }
}

// As one of sixteen bits. This and the next three are not one function of any type, so that each says in numbers what has room in it.
pub fn sixteen(n: Option<Number>) -> Option<i16>
    ensures { result ≡ signed_in 32768 32767 n }
{
    i16::try_from(signed(n?)?).ok()
}

// As one of thirty-two.
pub fn thirty_two(n: Option<Number>) -> Option<i32>
    ensures { result ≡ signed_in 2147483648 2147483647 n }
{
    i32::try_from(signed(n?)?).ok()
}

// As one of eight bits without a sign.
pub fn unsigned_eight(n: Option<Number>) -> Option<u8>
    ensures { result ≡ unsigned_in 255 n }
{
    u8::try_from(signed(n?)?).ok()
}

// As one of sixteen bits without a sign.
pub fn unsigned_sixteen(n: Option<Number>) -> Option<u16>
    ensures { result ≡ unsigned_in 65535 n }
{
    u16::try_from(signed(n?)?).ok()
}
