// What turns a rule back by its own numbers, wherever it comes from: the causes 8, 9 and 10 of document 01, in their order.

#![tactic(auto)]

ghost use Rattle.std.specs.Prelude.{◌≡◌};
ghost use Rattle.records.specs.Record.{is_beyond, bad_kind, bad_slope, bad_bound, decoded_with};

use answers::Cause;
use records::{Rule, Sound};
use signed::least;

// Outside the range of c.
fn beyond(x: i32) -> bool
    ensures { result ≡ is_beyond x }
{
    x < -1000000000 || x > 1000000000
}

// Cause 8; a record's padding must be clear. The tests are joined without a branch, since nobody can foresee a rule's kind.
fn bad_kind(clear: bool, rule: Rule) -> bool
    ensures { result ≡ bad_kind clear rule }
{
    let kind = rule.kind;
    !(((kind == 1) | (kind == 2)) & clear)
}

// Cause 9.
fn bad_slope(rule: Rule) -> bool
    ensures { result ≡ bad_slope rule }
{
    least(rule.a) || least(rule.b)
}

// Cause 10.
fn bad_bound(rule: Rule) -> bool
    ensures { result ≡ bad_bound rule }
{
    beyond(rule.c)
}

// A rule with its link, or the first of 8, 9 and 10 that turns it back. A rule that comes from no record has no padding, which is clear,
// and no link.
pub fn decoded(clear: bool, rule: Rule, next: u16) -> Result<Sound, Cause>
    ensures { result ≡ decoded_with clear rule next }
{
    let kind = bad_kind(clear, rule);
    let slope = bad_slope(rule);
    let bound = bad_bound(rule);
    if kind {
        return Err(Cause::Kind);
    }
    if slope {
        return Err(Cause::Slope);
    }
    if bound {
        return Err(Cause::Bound);
    }
    Ok(Sound { rule, next })
}
