// The readers of side, term and factor call each other, and the remaining text falls. Each takes what is left of a text and hands back the
// value of what it read with what is left behind that.
ghost use Rattle.std.specs.Prelude.{◌≡◌};
ghost use Rattle.forms.specs.Small.{Small};
ghost use Rattle.language.specs.Parser.{parse, judged};
ghost use Rattle.typed_rules.specs.Promises.{ReadsNumber, Closes, ReadsFactor, ReadsTerm, ReadsSide, ReadsFactors, ReadsTerms, Judges, JudgesRight};

use crate::Step;
use crate::tokens::skip;
use form_products::product;
use form_sums::{conclude, difference, negated, sum};
use forms::{Flaw, Form, Sense, Typed, Value, numeral};
use scanning::{after, byte_at, digit, digits};

// A number of at most 10 digits.
fn number(text: &[u8]) -> Step
    ensures { ReadsNumber text.now result }
{
    let run = digits(text, 1000000000);
    if text.len() - run.rest.len() <= 10 {
        Some((numeral(run.number as usize), run.rest))
    } else {
        None
    }
}

// The parenthesis after a side whose value is v.
fn closed(text: &[u8], v: Value) -> Step
    requires { Small v }
    ensures { Closes text.now v result }
{
    let item = skip(text);
    if byte_at(item) == b')' {
        Some((v, after(item)))
    } else {
        None
    }
}

// A number, x, y, a minus before a factor, or a side in parentheses.
#[cycle(factor_factors_side_term_terms)]
fn factor(text: &[u8], depth: usize) -> Step
    ensures { ReadsFactor text.now depth result }
{
    let item = skip(text);
    let rest = after(item);
    match byte_at(item) {
        b if digit(b) => number(item),
        b'x' => Some((Ok(Form { a: 1, b: 0, c: 0 }), rest)),
        b'y' => Some((Ok(Form { a: 0, b: 1, c: 0 }), rest)),
        b'-' => {
            let (v, rest) = factor(rest, depth)?;
            Some((negated(v), rest))
        }
        b'(' => {
            let (v, rest) = side(rest, depth.checked_sub(1)?)?;
            closed(rest, v)
        }
        _ => None,
    }
}

// Factors joined by *.
#[cycle(factor_factors_side_term_terms)]
fn term(text: &[u8], depth: usize) -> Step
    ensures { ReadsTerm text.now depth result }
{
    let (v, rest) = factor(text, depth)?;
    factors(rest, depth, v)
}

// What follows factors whose product is v.
#[cycle(factor_factors_side_term_terms)]
fn factors(text: &[u8], depth: usize, v: Value) -> Step
    requires { Small v }
    ensures { ReadsFactors text.now depth v result }
{
    let item = skip(text);
    if byte_at(item) == b'*' {
        let (w, rest) = factor(after(item), depth)?;
        factors(rest, depth, product(v, w))
    } else {
        Some((v, text))
    }
}

// Terms joined by + and -.
#[cycle(factor_factors_side_term_terms)]
fn side(text: &[u8], depth: usize) -> Step
    ensures { ReadsSide text.now depth result }
{
    let (v, rest) = term(text, depth)?;
    terms(rest, depth, v)
}

// What follows terms whose sum is v.
#[cycle(factor_factors_side_term_terms)]
fn terms(text: &[u8], depth: usize, v: Value) -> Step
    requires { Small v }
    ensures { ReadsTerms text.now depth v result }
{
    let item = skip(text);
    match byte_at(item) {
        b'+' => {
            let (w, rest) = term(after(item), depth)?;
            terms(rest, depth, sum(v, w))
        }
        b'-' => {
            let (w, rest) = term(after(item), depth)?;
            terms(rest, depth, difference(v, w))
        }
        _ => Some((v, text)),
    }
}

// The right side, after < or >, where the left side's value is v.
fn right(text: &[u8], sense: Sense, v: Value) -> Typed
    requires { Small v }
    ensures { JudgesRight text.now sense v result }
{
    if byte_at(text) != b'=' {
        return Err(Flaw::Text);
    }
    let (w, rest) = side(after(text), 8).ok_or(Flaw::Text)?;
    if skip(rest).is_empty() {
        conclude(sense, v, w)
    } else {
        Err(Flaw::Text)
    }
}

// The relation and the right side, after a left side whose value is v.
fn relation(text: &[u8], v: Value) -> Typed
    requires { Small v }
    ensures { Judges text.now v result }
{
    let item = skip(text);
    match byte_at(item) {
        b'<' => right(after(item), Sense::AtMost, v),
        b'>' => right(after(item), Sense::AtLeast, v),
        _ => Err(Flaw::Text),
    }
}

// A whole text of any length.
pub fn read_text(text: &[u8]) -> Typed
    ensures { result ≡ judged (parse text.now) }
{
    let (v, rest) = side(text, 8).ok_or(Flaw::Text)?;
    relation(rest, v)
}
