// The ranges of a slip's pair and direction, and weighted sums. Products and sums stay within 64 bits because every number is within
// document 02's ranges, so that nothing is divided and nothing is rounded.
ghost use Rattle.std.specs.Prelude.{◌≡◌, ◌+ℤ◌, ◌*ℤ◌};
ghost use Rattle.lp.specs.Document.{same as same_of};
ghost use Rattle.slip.specs.Facts.{adding, pair_in_range, ray_in_range};
ghost use Rattle.slip.specs.Runs.{Scaled, Fused, Summed};

use lp::{Constraint, Point, Ray};
use slip::within;

// Whether two numbers are equal.
pub fn same(y: i64, z: i64) -> bool
    ensures { result ≡ same_of y z }
{
    y == z
}

// A pair's three numbers.
pub fn pair_in_range(v: Point) -> bool
    ensures { result ≡ pair_in_range v }
{
    within(-65534000000000, v.x, 65534000000000)
        & within(-65534000000000, v.y, 65534000000000)
        & within(1, v.d, 2147352578)
}

// A direction's two.
pub fn ray_in_range(d: Ray) -> bool
    ensures { result ≡ ray_in_range d }
{
    within(0, d.dx, 32767) & within(0, d.dy, 32767)
}

// Whether a sum is scale times a part of the objective.
pub fn scaled(total: i64, scale: i64, part: i64) -> bool
    requires { Scaled scale part }
    ensures { result ≡ same_of total (scale *ℤ part) }
{
    same(total, scale * part)
}

// w·x + t
fn fused(w: i64, x: i64, t: i64) -> i64
    requires { Fused w x t }
    ensures { result ≡ w *ℤ x +ℤ t }
{
    w * x + t
}

// A rule with its weight, added to sums of a, b and c.
pub fn added(w: i64, r: Constraint, total: Constraint) -> Constraint
    requires { Summed w r total }
    ensures { result ≡ adding w r total }
{
    Constraint {
        a: fused(w, r.a, total.a),
        b: fused(w, r.b, total.b),
        c: fused(w, r.c, total.c),
    }
}
