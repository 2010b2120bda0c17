// The ring of a system: the triangle of the floors and the horizon, and each rule in turn.
ghost use Rattle.std.specs.Prelude.{◌≡◌};
ghost use Rattle.lp.specs.Range.{SmallFloors};
ghost use Rattle.boundary.specs.Size.{size as size_of};
ghost use Rattle.region.specs.Asked.{Entering, Entered, Growing, Grown};

use crate::insert::insert;
use boundary::Arc;
use lp::{Constraint, Floors};

// The size of a point: x + y + d, measured from the floors.
fn size(floors: Floors) -> Constraint
    requires { SmallFloors floors }
    ensures { result ≡ size_of floors }
{
    Constraint {
        a: -1,
        b: -1,
        c: 1 - floors.lx - floors.ly,
    }
}

// The entries that `order` names enter the ring, one after the other; None, if nothing is left of it.
fn enter(size: Constraint, run: &[i64], order: &[u16], ring: &mut [u16], arc: Arc) -> Option<Arc>
    requires { Entering run.now order.now ring.old size arc }
    ensures { Entered run.now order.now ring.old size arc result ring.new }
{
    let mut next = Some(arc);
    for &h in order {
        next = insert(size, run, &mut *ring, h, next);
    }
    next
}

// The ring of the rules that `order` names, if they leave one. Entries 0 and 1 are the floors, and the last of m is the horizon.
pub fn grow(floors: Floors, run: &[i64], m: usize, order: &[u16], ring: &mut [u16]) -> Option<Arc>
    requires { Growing run.now floors order.now ring.old m }
    ensures { Grown run.now floors order.now ring.old m result ring.new }
{
    ring[0] = 1;
    ring[1] = (m - 1) as u16;
    ring[2] = 0;
    enter(size(floors), run, order, ring, Arc { lo: 0, n: 3 })
}
