// How far a point is from a constraint's line, for whatever numbers anybody hands in: those that are out of their ranges get zero over
// zero. The tests of ranges are in `range`, below the engine and all else that asks them of a rule.

#![tactic(auto)]

pub mod range;

ghost use Rattle.std.specs.Prelude.{◌≡◌};
ghost use Rattle.amounts.specs.Tests.{point_in_range};
ghost use Rattle.amounts.specs.Amounts.{amount_of};

use crate::range::up_to;
use exact::lines::Seen;
use ints::magnitude;
use lp::{Amount, Constraint, Point};

fn point_in_range(v: Point) -> bool
    ensures { result ≡ point_in_range v }
{
    (magnitude(v.x) <= 65534000000000)
        & (magnitude(v.y) <= 65534000000000)
        & up_to(2147352578, v.d)
        & (0 < v.d)
}

// How far a point is from a constraint's line, in lowest terms.
pub fn amount(r: Constraint, v: Point) -> Amount
    ensures { result ≡ amount_of r v }
{
    if range::rule_in_range(r) & point_in_range(v) {
        fraction::lowest(exact::within::slack(Seen { r, v }), v.d)
    } else {
        Amount {
            numerator: 0,
            denominator: 0,
        }
    }
}
