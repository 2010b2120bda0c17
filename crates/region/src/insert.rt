// A constraint enters the ring: the ring is turned to its place, the edges on both sides whose outer corner it breaks are dropped, and
// it is put in their stead.
ghost use Rattle.engine.specs.Entries.{entry as entry_of};
ghost use Rattle.engine.specs.Rings.{Dropped, Left};
ghost use Rattle.region.specs.Row.{edges, sought_row};
ghost use Rattle.region.specs.Asked.{Seeking, Sought, Cutting, Putting, Cut, Inserting, Inserted};

use crate::edges::{at_place, corner_keeps, entry};
use crate::turning::turn;
use boundary::Arc;
use lp::Constraint;

// Turns a ring of two edges or more until h's place is behind its first edge, and says where the ring stands then. The turns that are left
// are counted and name no edge, so that a `for` over them would be no plainer.
fn seek(size: Constraint, run: &[i64], ring: &mut [u16], h: Constraint, arc: Arc) -> usize
    requires { Seeking run.now ring.old size h arc.lo arc.n }
    ensures { Sought run.now ring.old arc.lo arc.n
        (sought_row size h arc.n (edges run.now ring.old arc.lo arc.n)) result ring.new }
{
    let n = arc.n;
    let mut at = arc.lo;
    let mut left = n;
    while 0 < left {
        if at_place(run, &*ring, size, h, at, at + 1) {
            return at;
        }
        at = turn(&mut *ring, Arc { lo: at, n });
        left -= 1;
    }
    at
}

// How many edges at the front have a later corner that h breaks; the last edge stays.
fn front(run: &[i64], ring: &[u16], h: Constraint, arc: Arc) -> usize
    requires { Cutting run.now ring.now h arc.lo arc.n }
    ensures { Dropped (entry_of run.now) ring.now arc.lo arc.n h result }
{
    let last = arc.n - 1;
    for i in 0..last {
        let at = arc.lo + i;
        if corner_keeps(run, ring, h, at, at + 1) {
            return i;
        }
    }
    last
}

// How many edges are left when those at the back go whose earlier corner h breaks; the first edge stays. The count goes down as edges go
// and is what is handed back: a range turned round would be no plainer.
fn back(run: &[i64], ring: &[u16], h: Constraint, arc: Arc) -> usize
    requires { Cutting run.now ring.now h arc.lo arc.n }
    ensures { Left (entry_of run.now) ring.now arc.lo arc.n h result }
{
    let mut k = arc.n;
    while 1 < k {
        let at = arc.lo + k - 2;
        if corner_keeps(run, ring, h, at, at + 1) {
            return k;
        }
        k -= 1;
    }
    k
}

// The edges at both ends go whose outer corner the line breaks, and index h, its entry's, is put before those that are left. A row of one
// edge has no corner left, and so no ring.
fn cut(run: &[i64], ring: &mut [u16], h: u16, line: Constraint, arc: Arc) -> Option<Arc>
    requires { Putting run.now ring.old line arc.lo arc.n }
    ensures { Cut run.now ring.old h line arc.lo arc.n result ring.new }
{
    let dropped = front(run, &*ring, line, arc);
    let at = arc.lo + dropped;
    let n = arc.n - dropped;
    if n < 2 {
        return None;
    }
    let left = back(run, &*ring, line, Arc { lo: at, n });
    ring[at - 1] = h;
    Some(Arc {
        lo: at - 1,
        n: left + 1,
    })
}

// The entry at index h enters a ring, if there is one; None, if nothing is left of it.
pub fn insert(
    size: Constraint,
    run: &[i64],
    ring: &mut [u16],
    h: u16,
    arc: Option<Arc>,
) -> Option<Arc>
    requires { Inserting run.now ring.old size h arc }
    ensures { Inserted run.now ring.old size h arc result ring.new }
{
    let arc = arc?;
    let n = arc.n;
    let line = entry(run, h as usize);
    let lo = seek(size, run, &mut *ring, line, arc);
    if corner_keeps(run, &*ring, line, lo, lo + 1) {
        return Some(Arc { lo, n });
    }
    let lo = turn(&mut *ring, Arc { lo, n });
    cut(run, &mut *ring, h, line, Arc { lo, n })
}
