// The optimum: it stays where it keeps the new constraint, and else moves to the tightest point on that constraint's line. No check is
// needed there: the start point says whether the system is feasible.
ghost use Rattle.std.specs.Prelude.{◌≡◌};
ghost use Rattle.lp.specs.Outcome.{gain_order};
ghost use Rattle.model.specs.Step.{tightest_point, improved as improved_of, breaks as breaks_of};
ghost use Rattle.engine.specs.Entries.{entries as entries_of};
ghost use Rattle.engine.specs.Sizes.{Moving, Improving, Breaking};

use crate::order::{Order, upward};
use crate::scan::tightest;
use exact::cone::Climbing;
use exact::lines::{Line, Seen};
use exact::within::{direction, facing, gaining, keeps};
use fraction::reduce;
use lp::{Constraint, Point, Ray};

fn moved(order: &Order, entries: &[i64], n: usize, h: Constraint) -> Point
    requires { Moving order.now.objective order.now.tie entries.now n h }
    ensures { result ≡ tightest_point (gain_order order.now.objective order.now.tie) (entries_of entries.now 0 n) h }
{
    let side = upward(order, direction(Line { h }));
    match tightest(entries, n, facing(side, Line { h })) {
        None => Point { x: 0, y: 0, d: 1 },
        Some(met) => reduce(met.point),
    }
}

// The best pair after one more constraint. Whether it broke the constraint is handed in, since the walk counts that too. A pair that stays
// is put together from its numbers: so the walk's loop holds them in registers, where a copied pair goes through memory.
pub fn improved(
    order: &Order,
    entries: &[i64],
    n: usize,
    h: Constraint,
    cone: Option<(Ray, Ray)>,
    best: Option<Point>,
    broken: bool,
) -> Option<Point>
    requires { Improving order.now.objective order.now.tie entries.now n h cone best broken }
    ensures { result ≡ improved_of (gain_order order.now.objective order.now.tie) order.now.objective
        (entries_of entries.now 0 n) h cone best }
{
    match best {
        None => match gaining(Climbing {
            f: order.objective,
            cone,
        }) {
            Some(_) => None,
            None => Some(moved(order, entries, n, h)),
        },
        Some(v) => {
            if broken {
                Some(moved(order, entries, n, h))
            } else {
                Some(Point {
                    x: v.x,
                    y: v.y,
                    d: v.d,
                })
            }
        }
    }
}

// A best pair that does not keep the new constraint.
pub fn breaks(h: Constraint, best: Option<Point>) -> bool
    requires { Breaking h best }
    ensures { result ≡ breaks_of h best }
{
    match best {
        None => false,
        Some(v) => !keeps(Seen { r: h, v }),
    }
}
