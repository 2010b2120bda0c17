// The steps that lines ask for, from the numbers behind their word.
ghost use Rattle.std.specs.Prelude.{◌≡◌};
ghost use Rattle.language.proofs.Refusals.{InRange};
ghost use Rattle.session_lines.specs.Lines.{begun_of, start_in, rule_of, rule_in, written_of, typed_of, typed_in};

use crate::numbers::{Number, field, sixteen, thirty_two, unsigned_eight, unsigned_sixteen};
use crate::{Asked, Beginning};
use forms::{Sense, Written};
use records::Rule;
use scanning::byte_at;

// A session anew, if its numbers have 16 bits.
fn begun(
    p: Option<Number>,
    q: Option<Number>,
    lx: Option<Number>,
    ly: Option<Number>,
) -> Option<Asked>
    ensures { result ≡ begun_of p q lx ly }
{
    let p = sixteen(p)?;
    let q = sixteen(q)?;
    let lx = sixteen(lx)?;
    let ly = sixteen(ly)?;
    Some(Asked::Begin(Beginning { p, q, lx, ly }))
}

// What stands behind `start`: P, Q, LX and LY.
pub fn started(text: &[u8]) -> Option<Asked>
    ensures { result ≡ start_in text.now }
{
    let (p, rest) = field(text);
    let (q, rest) = field(rest);
    let (lx, rest) = field(rest);
    let (ly, rest) = field(rest);
    if rest.is_empty() {
        begun(p, q, lx, ly)
    } else {
        None
    }
}

// A rule more, if each of its numbers has room in its field.
fn ruled(
    kind: Option<Number>,
    a: Option<Number>,
    b: Option<Number>,
    c: Option<Number>,
    label: Option<Number>,
) -> Option<Asked>
    ensures { result ≡ rule_of kind a b c label }
{
    let a = sixteen(a)?;
    let b = sixteen(b)?;
    let c = thirty_two(c)?;
    let kind = unsigned_eight(kind)?;
    let label = unsigned_sixteen(label)?;
    Some(Asked::Add(Rule {
        kind,
        a,
        b,
        c,
        label,
    }))
}

// What stands behind `rule`: KIND, A, B, C and LABEL.
pub fn added(text: &[u8]) -> Option<Asked>
    ensures { result ≡ rule_in text.now }
{
    let (kind, rest) = field(text);
    let (a, rest) = field(rest);
    let (b, rest) = field(rest);
    let (c, rest) = field(rest);
    let (label, rest) = field(rest);
    if rest.is_empty() {
        ruled(kind, a, b, c, label)
    } else {
        None
    }
}

// A rule read from its text, under a label.
fn named(label: u16, w: Written<Sense>) -> Rule
    requires { InRange w }
    ensures { result ≡ written_of label w }
{
    Rule {
        kind: w.sense.number(),
        a: w.a as i16,
        b: w.b as i16,
        c: w.c as i32,
        label,
    }
}

// A rule typed as text, under a label.
fn typed_under(label: u16, text: &[u8]) -> Asked
    ensures { result ≡ typed_of label text.now }
{
    match typed_rules::read_rule(text) {
        Ok(w) => Asked::Add(named(label, w)),
        Err(flaw) => Asked::Turn(flaw.refusal()),
    }
}

// What stands behind `add`: LABEL and RULE.
pub fn typed(text: &[u8]) -> Option<Asked>
    ensures { result ≡ typed_in text.now }
{
    let (found, rest) = field(text);
    let label = unsigned_sixteen(found)?;
    if byte_at(rest) == b' ' {
        Some(typed_under(label, rest))
    } else {
        None
    }
}
