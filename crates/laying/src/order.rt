// The order in which rules enter the region's boundary, for speed alone. Where few rules are edges of the boundary, the chain's own is
// quickest, since sorting takes several times what all else does; where many are, a rule that enters out of turn walks along all of them,
// and sorting by the angles of the normals saves more than it takes. A sample of the rules tells which it is.
ghost use Rattle.std.specs.Prelude.{◌≡◌, ◌≤◌, length};
ghost use Rattle.lp.specs.Range.{SmallFloors};
ghost use Rattle.region.proofs.Theorems.{places};
ghost use Rattle.laying.specs.Asked.{Ordering, Stays, Ordered};
ghost use Rattle.laying.specs.Laying.{Names};

use lp::{Constraint, Floors};
use sorting::keys::{ByAngle, Frame};
use sorting::sort;

// The run counts 2, 3, 4 and so on: rule i is entry i + 2.
fn count_rules(order: &mut [u16])
    requires { length order.old ≤ 65533 }
    ensures { order.new ≡ places 2 (length order.old) }
{
    for (i, place) in order.iter_mut().enumerate() {
        *place = i as u16 + 2;
    }
}

// The region's size, and its floors as constraints.
fn frame(floors: Floors) -> Frame
    requires { SmallFloors floors }
{
    let lx = floors.lx;
    let ly = floors.ly;
    Frame {
        size: Constraint {
            a: -1,
            b: -1,
            c: 1 - lx - ly,
        },
        x: Constraint {
            a: -1,
            b: 0,
            c: 0 - lx,
        },
        y: Constraint {
            a: 0,
            b: -1,
            c: 0 - ly,
        },
    }
}

// Up to 64 of the rules, evenly taken from the chain, at the start of the run; how many they are.
fn put_sample(order: &mut [u16]) -> usize
    requires { length order.old ≤ 65533 }
    ensures { result ≤ length order.old }
{
    let step = order.len() / 64 + 1;
    // Two places move: `at` along the chain by steps, and k along the sample. A `for` over one would count the other by hand.
    let mut k = 0;
    let mut at = 0;
    while at < order.len() {
        order[k] = (at + 2) as u16;
        at += step;
        k += 1;
    }
    k
}

// Whether many of a sample of the rules are edges. The sample's boundary has runs of its own; the floors are put before the rules, and the
// horizon after them.
fn has_many_edges(floors: Floors, run: &mut [i64], order: &mut [u16]) -> bool
    requires { length order.old ≤ 65533 }
    ensures { Stays floors run.old (length order.old) run.new }
{
    let n = order.len();
    let k = put_sample(&mut *order);
    let mut ring = [0u16; 136];
    let mut corners = [0i64; 201];
    let listed = region::corners(floors, run, n, &order[..k], &mut ring, &mut corners);
    listed.is_some_and(|count| 16 < count)
}

// All rules, as many as the order is long, by the angles of their normals.
pub fn put_angles(floors: Floors, run: &[i64], order: &mut [u16])
    requires { Ordering floors order.old }
    ensures { Names (length order.old) order.new }
{
    count_rules(&mut *order);
    let angles = ByAngle {
        keys: run,
        frame: frame(floors),
    };
    sort(&angles, order);
}

// All rules, as many as the order is long: by angle where many of a sample are edges, and else in the chain's order.
pub fn put_order(floors: Floors, run: &mut [i64], order: &mut [u16])
    requires { Ordering floors order.old }
    ensures { Ordered floors run.old (length order.old) run.new order.new }
{
    if has_many_edges(floors, &mut *run, &mut *order) {
        put_angles(floors, &*run, order);
    } else {
        count_rules(order);
    }
}
