// The fields of a line: each stands after one space, as a sign or none and digits. Whatever else stands there makes some number too, since
// the slip is written again and compared. A reader takes what is left of the text and hands back what it read and what is left then.
ghost use Rattle.std.specs.Prelude.{◌≡◌};
ghost use Rattle.slip_reader.specs.Fields.{ends as ends_of, grown, signed_of, record_code as record_code_of};
ghost use Rattle.slip_reader.specs.Asked.{Runs, FindsNumber, Finds, FindsCode};

use scanning::{after, byte_at};

// A space or a line feed.
fn ends(b: u8) -> bool
    ensures { result ≡ ends_of b }
{
    b == b' ' || b == b'\n'
}

// A number with a digit more. What is beyond every number of 64 bits stays.
fn grow(n: u64, b: u8) -> u64
    ensures { result ≡ grown n b }
{
    if n <= 922337203685477580 {
        n * 10 + u64::from(b.saturating_sub(b'0'))
    } else {
        n
    }
}

// The number of the digits up to the field's end.
#[tactic(auto, unfolding(crate::specs::Fields::size_from, crate::specs::Fields::past))]
fn digits(text: &[u8]) -> (u64, &[u8])
    ensures { Runs text.now result.0 result.1.now }
{
    let mut size = 0;
    let mut rest = text;
    while let Some((b, more)) = rest.split_first()
        && !ends(*b)
    {
        size = grow(size, *b);
        rest = more;
    }
    (size, rest)
}

// The number of a sign and a size, as far as 64 bits go.
fn signed(negative: bool, size: u64) -> i64
    ensures { result ≡ signed_of negative size }
{
    if negative {
        0i64.saturating_sub_unsigned(size)
    } else {
        0i64.saturating_add_unsigned(size)
    }
}

// The number of a sign and the digits behind it.
fn number(negative: bool, text: &[u8]) -> (i64, &[u8])
    ensures { FindsNumber negative text.now result.0 result.1.now }
{
    let (size, rest) = digits(text);
    (signed(negative, size), rest)
}

// The number in the field that a text begins with, its space first.
#[tactic(auto, unfolding(crate::specs::Fields::integer_in, crate::specs::Fields::past_field))]
pub fn integer(text: &[u8]) -> (i64, &[u8])
    ensures { Finds text.now result.0 result.1.now }
{
    let field = after(text);
    if byte_at(field) == b'-' {
        number(true, after(field))
    } else {
        number(false, field)
    }
}

// The code of a record is one more than its index. An index below 1 is none: its code is that of floor x, whose text is another.
fn record_code(index: i64) -> i64
    ensures { result ≡ record_code_of index }
{
    if index <= 0 {
        0
    } else {
        index.saturating_add(1)
    }
}

// The code of the entry in the field that a text begins with: a floor's letter or a record's index.
#[tactic(auto, unfolding(crate::specs::Fields::code_in))]
pub fn code(text: &[u8]) -> (i64, &[u8])
    ensures { FindsCode text.now result.0 result.1.now }
{
    let (index, rest) = integer(text);
    match byte_at(after(text)) {
        b'X' => (0, rest),
        b'Y' => (1, rest),
        _ => (record_code(index), rest),
    }
}
