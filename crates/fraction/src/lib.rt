// Points, rays and amounts in lowest terms: their numbers are divided by what divides them all. The greatest common divisor is worked out
// by repeated remainders, on magnitudes. Each function takes every i64 there is.

#![tactic(auto)]

ghost use Rattle.std.specs.Prelude.{◌≡◌, pos};
ghost use Rattle.std.specs.Int.Signed.{quot_z};
ghost use Rattle.ints.specs.Gcd.{gcd};
ghost use Rattle.lp.specs.Outcome.{reduce as reduce_of, reduce_ray};
ghost use Rattle.lp.specs.Slack.{lowest as lowest_of};

use ints::magnitude;
use lp::{Amount, Point, Ray};

// Euclid's: the second number falls. The library has no greatest common divisor.
fn divisor(m: u64, n: u64) -> u64
    ensures { result ≡ gcd m n }
{
    if n == 0 { m } else { divisor(n, m % n) }
}

// z by g. A divisor of 0, which divides zeros alone, gives 0. One that is no i64 is 2^63 or more: it goes once into the least i64, if it
// is 2^63, and into no other.
fn quotient(z: i64, g: u64) -> i64
    ensures { result ≡ quot_z z (pos g) }
{
    match i64::try_from(g) {
        Ok(0) => 0,
        Ok(divisor) => z / divisor,
        Err(_) if magnitude(z) < g => 0,
        Err(_) => -1,
    }
}

// The first remainder of x by d is already small, where x and y are both large.
pub fn reduce(v: Point) -> Point
    ensures { result ≡ reduce_of v }
{
    let g = divisor(magnitude(v.y), divisor(magnitude(v.x), magnitude(v.d)));
    Point {
        x: quotient(v.x, g),
        y: quotient(v.y, g),
        d: quotient(v.d, g),
    }
}

pub fn reduce_ray(d: Ray) -> Ray
    ensures { result ≡ reduce_ray d }
{
    let g = divisor(magnitude(d.dx), magnitude(d.dy));
    Ray {
        dx: quotient(d.dx, g),
        dy: quotient(d.dy, g),
    }
}

// n/d in lowest terms.
pub fn lowest(n: i64, d: i64) -> Amount
    ensures { result ≡ lowest_of n d }
{
    let g = divisor(magnitude(n), magnitude(d));
    Amount {
        numerator: quotient(n, g),
        denominator: quotient(d, g),
    }
}
