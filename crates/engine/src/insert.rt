// A constraint enters the ring. If the corner at its place keeps it, the ring stays as it is. Else the ring is turned to begin behind that
// place, the edges at both ends whose outer corner it breaks are dropped, and it is put before those that are left.
ghost use Rattle.std.specs.Prelude.{◌≡◌, ◌+◌};
ghost use Rattle.engine.specs.Row.{named, following as following_of, ring_of};
ghost use Rattle.engine.specs.Rings.{Cutting, Dropped, Left, Putting, Cut, Following, Inserting, Inserted};

use crate::edges::corner_keeps;
use crate::seeking::seek;
use crate::turning::turn_to;
use boundary::Arc;
use exact::lines::Crossing;
use exact::within::meet;
use lp::Constraint;

// What is held of the ring once a constraint has entered: nothing any more; the ring as it stood; or the ring with the constraint as its
// first edge, which has cut it.
#[derive(Clone, Copy)]
pub enum Held {
    Nothing,
    Kept(Arc),
    Cut(Arc),
}

// The ring, if one is held.
pub fn ring_of(held: Held) -> Option<Arc>
    ensures { result ≡ ring_of held }
{
    match held {
        Held::Nothing => None,
        Held::Kept(arc) => Some(arc),
        Held::Cut(arc) => Some(arc),
    }
}

// How many edges at the front have a later corner that h breaks; the last edge stays.
fn front(run: &[i64], ring: &[u16], h: Constraint, arc: Arc) -> usize
    requires { Cutting run.now ring.now h arc.lo arc.n }
    ensures { Dropped (named run.now) ring.now arc.lo arc.n h result }
{
    let last = arc.n - 1;
    for i in 0..last {
        let at = arc.lo + i;
        if corner_keeps(run, ring, h, at, at + 1) {
            return i;
        }
    }
    last
}

// How many edges are left when those at the back go whose earlier corner h breaks; the first edge stays. The count goes down as edges go
// and is what is handed back: a range turned round would be no plainer.
fn back(run: &[i64], ring: &[u16], h: Constraint, arc: Arc) -> usize
    requires { Cutting run.now ring.now h arc.lo arc.n }
    ensures { Left (named run.now) ring.now arc.lo arc.n h result }
{
    let mut k = arc.n;
    while 1 < k {
        let at = arc.lo + k - 2;
        if corner_keeps(run, ring, h, at, at + 1) {
            return k;
        }
        k -= 1;
    }
    k
}

// The edges at both ends go whose outer corner h breaks, and index i, which names it, is put before those that are left. A row of one edge
// has no corner left, and so no ring.
fn cut(run: &[i64], ring: &mut [u16], i: u16, h: Constraint, arc: Arc) -> Option<Arc>
    requires { Putting run.now ring.old i h arc.lo arc.n }
    ensures { Cut run.now ring.old i h arc.lo arc.n result ring.new }
{
    let dropped = front(run, &*ring, h, arc);
    let at = arc.lo + dropped;
    let n = arc.n - dropped;
    if n < 2 {
        return None;
    }
    let left = back(run, &*ring, h, Arc { lo: at, n });
    ring[at - 1] = i;
    Some(Arc {
        lo: at - 1,
        n: left + 1,
    })
}

// The place of the edge that follows edge k of a ring: the first follows the last.
fn following(arc: Arc, k: usize) -> usize
    requires { Following arc.lo arc.n k }
    ensures { result ≡ arc.lo + following_of arc.n k }
{
    if k + 1 < arc.n {
        arc.lo + (k + 1)
    } else {
        arc.lo
    }
}

// The constraint h, which index i names, enters. Where no place is found, or the run has no room to turn the ring there, no ring is held
// any more.
pub fn insert(
    size: Constraint,
    run: &[i64],
    ring: &mut [u16],
    i: u16,
    h: Constraint,
    held: Held,
) -> Held
    requires { Inserting run.now ring.old size i h held }
    ensures { Inserted run.now ring.old size i h held result ring.new }
{
    let Some(arc) = ring_of(held) else {
        return Held::Nothing;
    };
    let w = meet(Crossing { r: h, s: size });
    let Some(k) = seek(size, run, &*ring, w, arc) else {
        return Held::Nothing;
    };
    if corner_keeps(run, &*ring, h, arc.lo + k, following(arc, k)) {
        return Held::Kept(arc);
    }
    let Some(lo) = turn_to(&mut *ring, arc, k) else {
        return Held::Nothing;
    };
    match cut(run, &mut *ring, i, h, Arc { lo, n: arc.n }) {
        None => Held::Nothing,
        Some(next) => Held::Cut(next),
    }
}
