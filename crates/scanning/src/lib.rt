// Bytes of a text and runs of digits, for the readers of texts. A reader takes what is left of a text and hands back what is left behind
// the part that it read. Every function is total: behind its end a text has no bytes.

#![tactic(auto)]

ghost use Rattle.std.specs.Prelude.{◌≡◌, drop};
ghost use Rattle.scanning.specs.Bytes.{first, tail, digit as digit_of};
ghost use Rattle.scanning.specs.Runs.{grown, Runs};

// A run's number, or some number beyond a limit, and the text behind the run.
#[derive(Clone, Copy)]
pub struct Run<'a> {
    pub number: u64,
    pub rest: &'a [u8],
}

// A text's first byte, or 0 at the end.
pub fn byte_at(text: &[u8]) -> u8
    ensures { result ≡ first text.now }
{
    text.first().copied().unwrap_or(0)
}

// The text behind its first byte.
pub fn after(text: &[u8]) -> &[u8]
    ensures { result.now ≡ tail text.now }
{
    match text {
        [_, rest @ ..] => rest,
        [] => text,
    }
}

// The text behind its first n bytes.
pub fn behind(text: &[u8], n: usize) -> &[u8]
    ensures { result.now ≡ drop n text.now }
{
    text.get(n..).unwrap_or(&[])
}

pub fn digit(b: u8) -> bool
    ensures { result ≡ digit_of b }
{
    48 <= b && b <= 57
}

// A number with a digit more. What is beyond the limit stays.
fn grow(n: u64, b: u8, limit: u32) -> u64
    ensures { result ≡ grown limit n b }
{
    if n <= limit as u64 {
        n * 10 + b.saturating_sub(48) as u64
    } else {
        n
    }
}

// As many digits as a text begins with.
#[tactic(auto, unfolding(crate::specs::Bytes::run, crate::specs::Bytes::past, crate::specs::Runs::capped))]
pub fn digits(text: &[u8], limit: u32) -> Run
    ensures { Runs limit text.now result.number result.rest.now }
{
    let mut number = 0;
    let mut rest = text;
    while let Some((b, more)) = rest.split_first()
        && digit(*b)
    {
        number = grow(number, *b, limit);
        rest = more;
    }
    Run { number, rest }
}
