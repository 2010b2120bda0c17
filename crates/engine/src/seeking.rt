// The search for the place of a constraint in the ring: two neighbours around which the normals turn from the one to it and from it to the
// other. The constraint is known by the point w in which its line meets that of the size. Each place is looked at before it is handed back,
// so that the search may go any way, and no law about the order of angles is needed.
ghost use Rattle.std.specs.Prelude.{◌<◌};
ghost use Rattle.engine.specs.Rings.{Ordering, Seeking, Halving, Sought, When};

use crate::edges::{edge, is_between};
use boundary::Arc;
use exact::lines::{Crossing, Seen};
use exact::within::{keeps, meet};
use lp::{Constraint, Point};

// Whether x comes before the constraint, or with it, on the way round from the ring's first edge; v is where that meets the size, and early
// says that the constraint lies within half a turn of it.
fn comes_before(v: Point, early: bool, x: Constraint, w: Point) -> bool
    requires { Ordering v x w }
{
    if keeps(Seen { r: x, v }) {
        if early {
            return keeps(Seen { r: x, v: w });
        }
        true
    } else {
        if early {
            return false;
        }
        keeps(Seen { r: x, v: w })
    }
}

// The last edge that comes before the constraint, by halving. What is halved is no range that a `for` could go over.
fn halved(size: Constraint, run: &[i64], ring: &[u16], w: Point, arc: Arc) -> usize
    requires { Halving run.now ring.now size w arc.lo arc.n }
    ensures { result < arc.n }
{
    let first = edge(run, ring, arc.lo);
    let v = meet(Crossing { r: size, s: first });
    let early = keeps(Seen { r: first, v: w });
    let mut from = 0;
    let mut to = arc.n;
    while from + 1 < to {
        let middle = from + (to - from) / 2;
        let x = edge(run, ring, arc.lo + middle);
        if comes_before(v, early, x, w) {
            from = middle;
        } else {
            to = middle;
        }
    }
    from
}

// The first edge behind which the constraint belongs, if it is one but the last.
fn first_place(run: &[i64], ring: &[u16], w: Point, arc: Arc) -> Option<usize>
    requires { Seeking run.now ring.now w arc.lo arc.n }
    ensures { When (Sought run.now ring.now w arc.lo arc.n) result }
{
    for k in 0..arc.n - 1 {
        let p = arc.lo + k;
        if is_between(run, ring, w, p, p + 1) {
            return Some(k);
        }
    }
    None
}

// The edge behind which the constraint belongs, counted from the ring's first, if one is found. Where one rule after the other cuts the
// same corner that is the first or the last, and these are looked at first.
pub fn seek(size: Constraint, run: &[i64], ring: &[u16], w: Point, arc: Arc) -> Option<usize>
    requires { Halving run.now ring.now size w arc.lo arc.n }
    ensures { When (Sought run.now ring.now w arc.lo arc.n) result }
{
    if is_between(run, ring, w, arc.lo, arc.lo + 1) {
        return Some(0);
    }
    let last = arc.n - 1;
    if is_between(run, ring, w, arc.lo + last, arc.lo) {
        return Some(last);
    }
    let k = halved(size, run, ring, w, arc);
    if k < last {
        let p = arc.lo + k;
        if is_between(run, ring, w, p, p + 1) {
            return Some(k);
        }
    }
    first_place(run, ring, w, arc)
}
