// The first of the listed corners in an order: by what an objective earns there, then by least x + y, and then by least x. Corners are
// compared as fractions, exactly.
ghost use Rattle.std.specs.Prelude.{◌≡◌};
ghost use Rattle.lp.specs.Program.{gain};
ghost use Rattle.lp.specs.Corners.{less as less_of};
ghost use Rattle.lp.specs.Outcome.{better, tie_order, gain_order};
ghost use Rattle.lp.specs.Document.{tie};
ghost use Rattle.engine.specs.Sizes.{Room};
ghost use Rattle.offering.specs.Listed.{point_at, points_from, chosen_of, first_by};
ghost use Rattle.offering.specs.Asked.{Tying, Weighing, Picking};

use compare::less;
use exact::lines::Earning;
use exact::within::earns;
use lp::{Functional, Point};

// The corner at a place of the list.
fn corner(corners: &[i64], k: usize) -> Point
    requires { Room corners.now k }
    ensures { result ≡ point_at corners.now k }
{
    let at = 3 * k;
    Point {
        x: corners[at],
        y: corners[at + 1],
        d: corners[at + 2],
    }
}

// w earns more than v.
fn earns_more(f: Functional, w: Point, v: Point) -> bool
    requires { Weighing f w v }
    ensures { result ≡ less_of (gain f v) v.d (gain f w) w.d }
{
    less(
        earns(Earning { f, v }),
        v.d,
        earns(Earning { f, v: w }),
        w.d,
    )
}

// w goes before v by the tie alone.
fn is_before(w: Point, v: Point) -> bool
    requires { Tying w v }
    ensures { result ≡ better (tie_order tie) w v }
{
    let total = Functional { p: -1, q: -1 };
    if earns_more(total, w, v) {
        return true;
    }
    if earns_more(total, v, w) {
        return false;
    }
    earns_more(Functional { p: -1, q: 0 }, w, v)
}

// w goes before v by the objective, and then by the tie.
fn is_better(f: Functional, w: Point, v: Point) -> bool
    requires { Weighing f w v }
    ensures { result ≡ better (gain_order f tie) w v }
{
    if earns_more(f, w, v) {
        return true;
    }
    if earns_more(f, v, w) {
        return false;
    }
    is_before(w, v)
}

// The one of two corners that goes before the other; v where they are the same.
fn chosen(f: Functional, w: Point, v: Point) -> Point
    requires { Weighing f w v }
    ensures { result ≡ chosen_of (gain_order f tie) w v }
{
    if is_better(f, w, v) { w } else { v }
}

// The first of the listed corners. Where none is listed it is of zeros.
pub fn best(f: Functional, corners: &[i64], count: usize) -> Point
    requires { Picking f corners.now count }
    ensures { result ≡ first_by (gain_order f tie) (points_from corners.now 0 count) }
{
    if count == 0 {
        return Point { x: 0, y: 0, d: 0 };
    }
    let mut v = corner(corners, 0);
    for i in 1..count {
        v = chosen(f, corner(corners, i), v);
    }
    v
}
