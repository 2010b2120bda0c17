// Products of the values of a typed text. The function that can be called from outside is total: an operand beyond the limit is refused as
// a number beyond it would be.

#![tactic(auto)]

ghost use Rattle.forms.specs.Value.{held as held_of, product as product_of};
ghost use Rattle.forms.specs.Small.{Valued};

use forms::Value;
use forms::operands::paired;
use within::multiplied;

mod within;

pub fn product(v: Value, w: Value) -> Value
    ensures { Valued (product_of (held_of v) (held_of w)) result }
{
    let (f, g) = paired(v, w)?;
    multiplied(f, g)
}
