// The ring of the entries so far: the triangle of the floors and the line at infinity, and each rule in the order of the chain.
ghost use Rattle.std.specs.Prelude.{◌≡◌};
ghost use Rattle.lp.specs.Range.{SmallFloors};
ghost use Rattle.boundary.specs.Size.{size as size_of};
ghost use Rattle.engine.specs.Carrying.{Growing, Grown};

use crate::entries::entry;
use crate::insert::{Held, insert};
use boundary::Arc;
use lp::{Constraint, Floors};

// The size of a point: x + y + d, measured from the floors.
pub fn size(floors: Floors) -> Constraint
    requires { SmallFloors floors }
    ensures { result ≡ size_of floors }
{
    Constraint {
        a: -1,
        b: -1,
        c: 1 - floors.lx - floors.ly,
    }
}

// The ring of the first m entries. It begins in the middle of its run, with room on both sides.
pub fn grow(size: Constraint, run: &[i64], ring: &mut [u16], m: usize) -> Held
    requires { Growing run.now ring.old size m }
    ensures { Grown run.now ring.old size m result ring.new }
{
    let lo = ring.len() / 2;
    ring[lo] = 2;
    ring[lo + 1] = 0;
    ring[lo + 2] = 1;
    let mut held = Held::Kept(Arc { lo, n: 3 });
    for k in 2..m {
        let i = (k + 1) as u16;
        held = insert(size, run, &mut *ring, i, entry(run, k), held);
    }
    held
}
