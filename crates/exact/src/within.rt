// Arithmetic on numbers within document 01's bounds. A function takes one value that says the bounds of itself (lines, cone), and whoever
// puts such a value together shows them: so no product and no sum leaves 64 bits, and what is handed back is the exact number. The planner
// and the checker go through these alone.
ghost use Rattle.std.specs.Prelude.{◌≡◌, pos, ◌+ℤ◌, ◌*ℤ◌, neg_ℤ};
ghost use Rattle.std.specs.Int.Signed.{le_z, lt_z};
ghost use Rattle.lp.specs.Program.{ray, rise, along, gain, slack as slack_of};
ghost use Rattle.lp.specs.Outcome.{det as det_of, meet as meet_of, keeps as keeps_of};
ghost use Rattle.lp.specs.Certificate.{is_zero};
ghost use Rattle.exact.specs.Turned.{facing as facing_of, direction as direction_of};
ghost use Rattle.exact.specs.Cone.{narrow as narrow_of, gaining as gaining_of};

use crate::cone::{Climbing, Narrowing};
use crate::lines::{Corner, Crossing, Earning, Gaining, Line, Rising, Seen};
use crate::products::{difference, distance, sum};
use lp::{Constraint, Point, Ray};

// Above 0 where r is left as the line of s is walked.
pub fn det(x: Crossing) -> i64
    ensures { result ≡ det_of x.r x.s }
{
    let Crossing { r, s } = x;
    difference(r.a, s.b, s.a, r.b)
}

// Above 0 where the normals of r and s are less than a quarter turn apart.
pub fn dot(x: Crossing) -> i64
    ensures { result ≡ x.r.a *ℤ x.s.a +ℤ x.r.b *ℤ x.s.b }
{
    let Crossing { r, s } = x;
    sum(r.a, s.a, r.b, s.b)
}

// Where two lines meet.
pub fn meet(x: Crossing) -> Point
    ensures { result ≡ meet_of x.r x.s }
{
    let Crossing { r, s } = x;
    Point {
        x: difference(r.c, s.b, s.c, r.b),
        y: difference(r.a, s.c, s.a, r.c),
        d: difference(r.a, s.b, s.a, r.b),
    }
}

// How far a point is from a constraint's line, times d. Its sign decides; only what is shown is reduced.
pub fn slack(x: Seen) -> i64
    ensures { result ≡ slack_of x.r x.v }
{
    let Seen { r, v } = x;
    distance(r.a, v.x, r.b, v.y, r.c, v.d)
}

// A point on the allowed side of a constraint's line, or on the line.
pub fn keeps(x: Seen) -> bool
    ensures { result ≡ keeps_of x.r x.v }
{
    0 <= slack(x)
}

// Whether the corner of p and q keeps h. Asked of the size of a point, this says that the way from p to q is a turn to the left.
pub fn keeps_at(x: Corner) -> bool
    ensures { result ≡ keeps_of x.h (meet_of x.p x.q) }
{
    let Corner { h, p, q } = x;
    let v = meet(Crossing { r: p, s: q });
    keeps(Seen { r: h, v })
}

// A constraint that holds with equality at a point.
pub fn tight(x: Seen) -> bool
    ensures { result ≡ is_zero (slack_of x.r x.v) }
{
    slack(x) == 0
}

// A constraint that is never left along a ray.
pub fn stays(x: Rising) -> bool
    ensures { result ≡ le_z (rise x.r x.d) (pos 0) }
{
    let Rising { r, d } = x;
    sum(r.a, d.dx, r.b, d.dy) <= 0
}

// A point on a constraint's line or beyond it.
pub fn reaches(x: Seen) -> bool
    ensures { result ≡ le_z (slack_of x.r x.v) (pos 0) }
{
    slack(x) <= 0
}

// An objective that rises along a ray.
pub fn gains(x: Gaining) -> bool
    ensures { result ≡ lt_z (pos 0) (along x.f x.d) }
{
    let Gaining { f, d } = x;
    0 < sum(f.p, d.dx, f.q, d.dy)
}

// An objective that falls along a ray.
pub fn loses(x: Gaining) -> bool
    ensures { result ≡ lt_z (along x.f x.d) (pos 0) }
{
    let Gaining { f, d } = x;
    sum(f.p, d.dx, f.q, d.dy) < 0
}

// What a functional earns at a point, times its denominator.
pub fn earns(x: Earning) -> i64
    ensures { result ≡ gain x.f x.v }
{
    let Earning { f, v } = x;
    f.p * v.x + f.q * v.y
}

// The direction in which a constraint's line is walked.
pub fn direction(x: Line) -> Ray
    ensures { result ≡ direction_of x.h }
{
    let Line { h } = x;
    Ray { dx: h.b, dy: -h.a }
}

// The same line the other way.
pub fn backward(x: Line) -> Ray
    ensures { result ≡ ray (neg_ℤ x.h.b) x.h.a }
{
    let Line { h } = x;
    Ray { dx: -h.b, dy: h.a }
}

// A constraint as it stands, or the same line with the other side allowed.
pub fn facing(side: bool, x: Line) -> Constraint
    ensures { result ≡ facing_of side x.h }
{
    let Line { h } = x;
    if side {
        return h;
    }
    Constraint {
        a: -h.a,
        b: -h.b,
        c: -h.c,
    }
}

// What a constraint leaves of the rays of a cone.
pub fn narrow(x: Narrowing) -> Option<(Ray, Ray)>
    ensures { result ≡ narrow_of x.h x.cone }
{
    let Narrowing { h, cone } = x;
    let (lo, hi) = cone?;
    if stays(Rising { r: h, d: lo }) {
        if stays(Rising { r: h, d: hi }) {
            Some((lo, hi))
        } else {
            Some((lo, direction(Line { h })))
        }
    } else if stays(Rising { r: h, d: hi }) {
        Some((backward(Line { h }), hi))
    } else {
        None
    }
}

// A ray of the cone along which the objective gains: the flatter of the two if it does.
pub fn gaining(x: Climbing) -> Option<Ray>
    ensures { result ≡ gaining_of x.f x.cone }
{
    let Climbing { f, cone } = x;
    let (lo, hi) = cone?;
    if gains(Gaining { f, d: lo }) {
        Some(lo)
    } else if gains(Gaining { f, d: hi }) {
        Some(hi)
    } else {
        None
    }
}
