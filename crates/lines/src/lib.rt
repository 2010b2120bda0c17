// Exact arithmetic of a region's edges: on which side of a line the corner of two others lies. Nothing leaves 64 bits for lawful
// constraints; other ones get a zero.

#![tactic(auto)]

ghost use Rattle.std.specs.Prelude.{◌≡◌};
ghost use Rattle.lines.specs.Sides.{side_of};

use amounts::range::rule_in_range;
use exact::lines::{Crossing, Seen};
use exact::within::{meet, slack};
use lp::Constraint;

// Above 0 where the corner of p and q lies on the allowed side of m; with the size for m, where q's normal is left of p's.
pub fn side(m: Constraint, p: Constraint, q: Constraint) -> i64
    ensures { result ≡ side_of m p q }
{
    if rule_in_range(m) & rule_in_range(p) & rule_in_range(q) {
        let v = meet(Crossing { r: p, s: q });
        slack(Seen { r: m, v })
    } else {
        0
    }
}
