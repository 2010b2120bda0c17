// Arithmetic on constraints, points and rays: the sign of a determinant decides on which side of a line a point lies, so that nothing is
// divided and nothing is rounded. Every function of this file is total: what leaves 64 bits is wrapped, as the library's `wrapping_mul`
// leaves it. Of numbers within document 01's bounds nothing does, and what is handed back is then the exact number (proofs/Exact.antt).
// Who holds such numbers, as the planner and the checker do, calls `within`, whose functions have the same names: these take values that
// say the bounds of themselves (lines, cone), and promise the exact number at once.

#![tactic(auto)]

pub mod cone;
pub mod lines;
mod products;
pub mod within;

ghost use Rattle.std.specs.Prelude.{◌≡◌, pos, ◌+ℤ◌, ◌-ℤ◌, ◌*ℤ◌, neg_ℤ};
ghost use Rattle.std.specs.Int.{int_wrap, w64};
ghost use Rattle.std.specs.Int.Signed.{le_z, lt_z};
ghost use Rattle.lp.specs.Program.{ray, rise, along, gain, slack as slack_of};
ghost use Rattle.lp.specs.Outcome.{det as det_of, meet as meet_of};
ghost use Rattle.lp.specs.Certificate.{is_zero};
ghost use Rattle.exact.specs.Turned.{facing as facing_of, direction as direction_of};
ghost use Rattle.exact.specs.Wrapped.{keeps_corner, wrapped_point, wrapped_ray, wrapped_constraint};

pub use cone::{gaining, narrow};
use lp::{Constraint, Functional, Point, Ray};

// p·q + s·t
fn sum(p: i64, q: i64, s: i64, t: i64) -> i64
    ensures { result ≡ int_wrap w64 (p *ℤ q +ℤ s *ℤ t) }
{
    p.wrapping_mul(q).wrapping_add(s.wrapping_mul(t))
}

// p·q − s·t
fn difference(p: i64, q: i64, s: i64, t: i64) -> i64
    ensures { result ≡ int_wrap w64 (p *ℤ q -ℤ s *ℤ t) }
{
    p.wrapping_mul(q).wrapping_sub(s.wrapping_mul(t))
}

// Above 0 where r is left as the line of s is walked.
pub fn det(r: Constraint, s: Constraint) -> i64
    ensures { result ≡ int_wrap w64 (det_of r s) }
{
    difference(r.a, s.b, s.a, r.b)
}

// Above 0 where the normals of r and s are less than a quarter turn apart.
pub fn dot(r: Constraint, s: Constraint) -> i64
    ensures { result ≡ int_wrap w64 (r.a *ℤ s.a +ℤ r.b *ℤ s.b) }
{
    sum(r.a, s.a, r.b, s.b)
}

// Where two lines meet.
pub fn meet(r: Constraint, s: Constraint) -> Point
    ensures { result ≡ wrapped_point (meet_of r s) }
{
    Point {
        x: difference(r.c, s.b, s.c, r.b),
        y: difference(r.a, s.c, s.a, r.c),
        d: difference(r.a, s.b, s.a, r.b),
    }
}

// How far a point is from a constraint's line, times d. Its sign decides; only what is shown is reduced.
pub fn slack(r: Constraint, v: Point) -> i64
    ensures { result ≡ int_wrap w64 (slack_of r v) }
{
    r.c.wrapping_mul(v.d).wrapping_sub(sum(r.a, v.x, r.b, v.y))
}

// A point on the allowed side of a constraint's line, or on the line.
pub fn keeps(r: Constraint, v: Point) -> bool
    ensures { result ≡ le_z (pos 0) (int_wrap w64 (slack_of r v)) }
{
    0 <= slack(r, v)
}

// Whether the corner of p and q keeps h. Asked of the size of a point, this says that the way from p to q is a turn to the left.
pub fn keeps_at(h: Constraint, p: Constraint, q: Constraint) -> bool
    ensures { result ≡ keeps_corner h p q }
{
    keeps(h, meet(p, q))
}

// A constraint that holds with equality at a point.
pub fn tight(r: Constraint, v: Point) -> bool
    ensures { result ≡ is_zero (int_wrap w64 (slack_of r v)) }
{
    slack(r, v) == 0
}

// A constraint that is never left along a ray.
pub fn stays(r: Constraint, d: Ray) -> bool
    ensures { result ≡ le_z (int_wrap w64 (rise r d)) (pos 0) }
{
    sum(r.a, d.dx, r.b, d.dy) <= 0
}

// A point on a constraint's line or beyond it.
pub fn reaches(r: Constraint, v: Point) -> bool
    ensures { result ≡ le_z (int_wrap w64 (slack_of r v)) (pos 0) }
{
    slack(r, v) <= 0
}

// An objective that rises along a ray.
pub fn gains(f: Functional, d: Ray) -> bool
    ensures { result ≡ lt_z (pos 0) (int_wrap w64 (along f d)) }
{
    0 < sum(f.p, d.dx, f.q, d.dy)
}

// An objective that falls along a ray.
pub fn loses(f: Functional, d: Ray) -> bool
    ensures { result ≡ lt_z (int_wrap w64 (along f d)) (pos 0) }
{
    sum(f.p, d.dx, f.q, d.dy) < 0
}

// What a functional earns at a point, times its denominator.
pub fn earns(f: Functional, v: Point) -> i64
    ensures { result ≡ int_wrap w64 (gain f v) }
{
    sum(f.p, v.x, f.q, v.y)
}

// The direction in which a constraint's line is walked.
pub fn direction(line: Constraint) -> Ray
    ensures { result ≡ wrapped_ray (direction_of line) }
{
    Ray {
        dx: line.b,
        dy: line.a.wrapping_neg(),
    }
}

// The same line the other way.
pub fn backward(line: Constraint) -> Ray
    ensures { result ≡ wrapped_ray (ray (neg_ℤ line.b) line.a) }
{
    Ray {
        dx: line.b.wrapping_neg(),
        dy: line.a,
    }
}

// A constraint as it stands, or the same line with the other side allowed.
pub fn facing(side: bool, h: Constraint) -> Constraint
    ensures { result ≡ wrapped_constraint (facing_of side h) }
{
    if side {
        return h;
    }
    Constraint {
        a: h.a.wrapping_neg(),
        b: h.b.wrapping_neg(),
        c: h.c.wrapping_neg(),
    }
}

#[cfg(test)]
mod tests {
    use super::*;
    use std::test::Fail;

    const R: Constraint = Constraint { a: 1, b: 2, c: 12 };

    const S: Constraint = Constraint { a: 3, b: 1, c: 9 };

    const F: Functional = Functional { p: 1, q: 1 };

    #[test]
    fn two_lines(rt: HostRuntime) -> Result<(), Fail> {
        assert_eq!(rt; det(R, S), -5);
        assert_eq!(rt; dot(R, S), 5);
        let v = meet(R, S);
        assert_eq!(rt; [v.x, v.y, v.d], [-6, -27, -5]);
        assert!(rt; keeps_at(Constraint { a: 1, b: 0, c: 2 }, S, R));
        assert!(rt; !keeps_at(Constraint { a: 1, b: 0, c: 1 }, S, R));
        Ok(())
    }

    #[test]
    fn a_point(rt: HostRuntime) -> Result<(), Fail> {
        let inside = Point { x: 2, y: 3, d: 1 };
        let on = Point { x: 2, y: 5, d: 1 };
        assert_eq!(rt; slack(R, inside), 4);
        assert_eq!(rt; earns(F, inside), 5);
        assert!(rt; keeps(R, inside) & !tight(R, inside) & !reaches(R, inside));
        assert!(rt; keeps(R, on) & tight(R, on) & reaches(R, on));
        Ok(())
    }

    #[test]
    fn rays(rt: HostRuntime) -> Result<(), Fail> {
        let east = Ray { dx: 1, dy: 0 };
        let south = Ray { dx: 0, dy: -1 };
        let north = Ray { dx: 0, dy: 1 };
        assert!(rt; gains(F, east) & !loses(F, east) & loses(F, south));
        assert!(rt; stays(R, direction(R)) & stays(R, backward(R)) & !stays(R, east));
        let narrowed = narrow(R, Some((south, north)));
        assert!(rt;
            narrowed.is_some_and(|(lo, hi)| (lo.dx == 0)
                & (lo.dy == -1)
                & (hi.dx == 2)
                & (hi.dy == -1))
        );
        assert!(rt; gaining(F, Some((south, east))).is_some_and(|d| (d.dx == 1) & (d.dy == 0)));
        let turned = facing(false, R);
        assert_eq!(rt; [turned.a, turned.b, turned.c], [-1, -2, -12]);
        assert_eq!(rt; facing(true, R).c, 12);
        Ok(())
    }

    // What leaves 64 bits is wrapped: twice the greatest number is -2, and the least turned round is itself.
    #[test]
    fn out_of_bounds(rt: HostRuntime) -> Result<(), Fail> {
        let steep = Constraint {
            a: i64::MAX,
            b: i64::MIN,
            c: i64::MAX,
        };
        assert_eq!(rt; det(steep, Constraint { a: 0, b: 2, c: 0 }), -2);
        assert_eq!(rt; backward(steep).dx, i64::MIN);
        assert!(rt; !keeps(steep, Point { x: 0, y: 0, d: 2 }));
        Ok(())
    }
}
