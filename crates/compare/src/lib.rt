// The order of fractions and of points, exact although the cross products need more than 64 bits. A number X over D is taken apart into
// quotient and remainder: quotients are compared first, and only where they are the same the products of remainders with denominators,
// which are below 2^62. Each public function takes every i64 there is.

#![tactic(auto)]

ghost use Rattle.std.specs.Prelude.{◌≡◌};
ghost use Rattle.lp.specs.Corners.{less as less_of, before as before_of};
ghost use Rattle.compare.specs.Comparing.{is_denominator, less_in, before_in, Denominators};

use lp::Point;

// The denominator of a pair is above 0 and below 2^31.
fn is_denominator(d: i64) -> bool
    ensures { result ≡ is_denominator d }
{
    (1 <= d) & (d <= 2147483647)
}

// x/d is less than x2/d2. Quotients are rounded towards 0, and a remainder has its number's sign.
fn smaller(x: i64, d: i64, x2: i64, d2: i64) -> bool
    requires { Denominators d d2 }
    ensures { result ≡ less_of x d x2 d2 }
{
    let q = x / d;
    let q2 = x2 / d2;
    if q < q2 {
        return true;
    }
    if q2 < q {
        return false;
    }
    let r = x % d;
    let r2 = x2 % d2;
    r * d2 < r2 * d
}

// Smaller x first, and then smaller y.
fn first(v: Point, w: Point) -> bool
    requires { Denominators v.d w.d }
    ensures { result ≡ before_of v w }
{
    if smaller(v.x, v.d, w.x, w.d) {
        return true;
    }
    if smaller(w.x, w.d, v.x, v.d) {
        return false;
    }
    smaller(v.y, v.d, w.y, w.d)
}

// Whether x/d is less than x2/d2; false where one of them is not a fraction of a pair.
pub fn less(x: i64, d: i64, x2: i64, d2: i64) -> bool
    ensures { result ≡ less_in x d x2 d2 }
{
    (is_denominator(d) & is_denominator(d2)) && smaller(x, d, x2, d2)
}

// Whether v comes before w in the order of corners; false where one of them is not a pair.
pub fn before(v: Point, w: Point) -> bool
    ensures { result ≡ before_in v w }
{
    (is_denominator(v.d) & is_denominator(w.d)) && first(v, w)
}
