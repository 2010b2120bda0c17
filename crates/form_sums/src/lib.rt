// Sums and differences of the values of a typed text, and the rule that two sides make. Every function that can be called from outside is
// total: an operand beyond the limit is refused as a number beyond it would be.

#![tactic(auto)]

ghost use Rattle.std.specs.Prelude.{◌≡◌};
ghost use Rattle.forms.specs.Value.{held as held_of, negated as negated_of, sum as sum_of, difference as difference_of};
ghost use Rattle.forms.specs.Value.{conclude as conclude_of};
ghost use Rattle.forms.specs.Small.{Valued};

use forms::operands::{held, limited, paired};
use forms::{Flaw, Form, Value, Written};
use within::{add_forms, finished, sub_forms};

mod within;

pub fn negated(v: Value) -> Value
    ensures { Valued (negated_of (held_of v)) result }
{
    let f = held(v)?;
    Ok(sub_forms(Form { a: 0, b: 0, c: 0 }, f))
}

pub fn sum(v: Value, w: Value) -> Value
    ensures { Valued (sum_of (held_of v) (held_of w)) result }
{
    let (f, g) = paired(v, w)?;
    limited(add_forms(f, g))
}

pub fn difference(v: Value, w: Value) -> Value
    ensures { Valued (difference_of (held_of v) (held_of w)) result }
{
    let (f, g) = paired(v, w)?;
    limited(sub_forms(f, g))
}

// The rule of two sides, or the flaw of the left one, the right one, or the last. What is given as its relation is handed on as it is.
pub fn conclude<K: Copy>(sense: K, v: Value, w: Value) -> Result<Written<K>, Flaw>
    ensures { result ≡ conclude_of sense (held_of v) (held_of w) }
{
    let (f, g) = paired(v, w)?;
    finished(sense, f, g)
}
