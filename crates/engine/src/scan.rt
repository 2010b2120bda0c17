// The passes over the entries of a system. Entries stand in one lent slice, three numbers each, floors first; n says how many of them
// count.
ghost use Rattle.std.specs.Prelude.{◌≡◌, None};
ghost use Rattle.model.specs.Scan.{tightest as tightest_of, first_broken};
ghost use Rattle.lp.specs.Range.{SmallConstraint};
ghost use Rattle.engine.specs.Entries.{entries as entries_of};
ghost use Rattle.engine.specs.Held.{farthest, tightened, found_of};
ghost use Rattle.engine.specs.Sizes.{Tightening, Along, Checking};

use crate::entries::entry;
use exact::lines::{Crossing, Line, Seen};
use exact::within::{det, direction, keeps, meet};
use lp::{Constraint, Point};
use model::Met;

// The tightest point so far on a line that is walked. At first it is the point at infinity, whose d is 0: whatever meets the line breaks
// it. (An Option of it would say the same; this has no tag, and so the loop holds it in registers.)
fn at_infinity(line: Constraint) -> Met
    requires { SmallConstraint line }
    ensures { result ≡ farthest line }
{
    let along = direction(Line { h: line });
    Met {
        index: 0,
        entry: line,
        point: Point {
            x: along.dx,
            y: along.dy,
            d: 0,
        },
    }
}

// Entry m, at index i, is met along the line, and before the point held so far. Whether it is met at all is asked first, since that takes
// fewer products.
fn tighter(line: Constraint, i: usize, m: Constraint, held: Met) -> Met
    requires { Tightening line m held }
    ensures { result ≡ tightened line i m held }
{
    let p = held.point;
    if 0 < det(Crossing { r: m, s: line }) {
        if keeps(Seen { r: m, v: p }) {
            held
        } else {
            Met {
                index: i,
                entry: m,
                point: meet(Crossing { r: m, s: line }),
            }
        }
    } else {
        held
    }
}

fn found(held: Met) -> Option<Met>
    ensures { result ≡ found_of held }
{
    let p = held.point;
    if 0 < p.d { Some(held) } else { None }
}

// The tightest point on a line among the first n entries.
pub fn tightest(entries: &[i64], n: usize, line: Constraint) -> Option<Met>
    requires { Along entries.now n line }
    ensures { result ≡ tightest_of line 0 (entries_of entries.now 0 n) None }
{
    let mut held = at_infinity(line);
    for i in 0..n {
        held = tighter(line, i, entry(entries, i), held);
    }
    found(held)
}

// The first of n entries that a point breaks.
pub fn first_broken(entries: &[i64], n: usize, v: Point) -> Option<(usize, Constraint)>
    requires { Checking entries.now n v }
    ensures { result ≡ first_broken v 0 (entries_of entries.now 0 n) }
{
    for i in 0..n {
        let m = entry(entries, i);
        if !keeps(Seen { r: m, v }) {
            return Some((i, m));
        }
    }
    None
}
