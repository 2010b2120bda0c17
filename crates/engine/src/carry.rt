// The walk with the region's boundary carried along, from some rule of the chain on. Each rule enters the ring; where it cuts it, the walk
// takes the ends of its edge, and where it does not, nothing moves but an optimum that comes to be, which happens once.
ghost use Rattle.std.specs.Prelude.{◌≡◌};
ghost use Rattle.engine.specs.Entries.{entries as entries_of};
ghost use Rattle.engine.specs.Solving.{rules_solved};
ghost use Rattle.engine.specs.Row.{gap_of};
ghost use Rattle.engine.specs.Carrying.{Beside, Advancing, Advanced, Carrying, CarryingIn};

use crate::Solution;
use crate::between::{Gap, step_at};
use crate::edges::edge;
use crate::entries::entry;
use crate::grow::{grow, size};
use crate::insert::{Held, insert};
use crate::order::Order;
use crate::verdict::solution;
use crate::walk::tie;
use amounts::range::rule_in_range;
use lp::{Constraint, Floors, Functional};
use model::Walk;

#[derive(Clone, Copy)]
pub struct Carried {
    pub walk: Walk,
    pub held: Held,
}

// The edges between which a rule has cut the ring: the last and the second.
fn gap_of(run: &[i64], ring: &[u16], held: Held) -> Option<Gap>
    requires { Beside run.now ring.now held }
    ensures { result ≡ gap_of run.now ring.now held }
{
    let Held::Cut(arc) = held else {
        return None;
    };
    Some(Gap {
        before: edge(run, ring, arc.lo + arc.n - 1),
        behind: edge(run, ring, arc.lo + 1),
    })
}

// One more rule h, at entry i.
fn advance(
    objective: Functional,
    size: Constraint,
    run: &[i64],
    ring: &mut [u16],
    i: usize,
    h: Constraint,
    walk: Walk,
    held: Held,
) -> Carried
    requires { Advancing objective size run.now ring.old i h walk held }
    ensures { Advanced objective size run.now ring.old i h walk result ring.new }
{
    let order = Order {
        objective,
        tie: tie(),
    };
    let held = insert(size, run, &mut *ring, (i + 1) as u16, h, held);
    let gap = gap_of(run, &*ring, held);
    let walk = step_at(&order, run, i, h, walk, gap);
    Carried { walk, held }
}

fn carry_in(
    objective: Functional,
    floors: Floors,
    run: &[i64],
    n: usize,
    walk: Walk,
    i: usize,
    ring: &mut [u16],
) -> Option<Solution>
    requires { CarryingIn objective floors run.now n walk i ring.old }
    ensures { result ≡ rules_solved objective floors (entries_of run.now 2 n) }
{
    let size = size(floors);
    let end = n + 2;
    let mut held = grow(size, run, &mut *ring, i);
    let mut walk = walk;
    for k in i..end {
        let h = entry(run, k);
        if rule_in_range(h) {
            let next = advance(objective, size, run, &mut *ring, k, h, walk, held);
            walk = next.walk;
            held = next.held;
        } else {
            return None;
        }
    }
    Some(solution(objective, walk))
}

// Carries on from entry i. The ring's run is twice as long as the ring gets, and stands on the stack here alone; clearing that for 8,190
// rules would take long beside a chain of 255.
pub fn carry_on(
    objective: Functional,
    floors: Floors,
    run: &[i64],
    n: usize,
    walk: Walk,
    i: usize,
) -> Option<Solution>
    requires { Carrying objective floors run.now n walk i }
    ensures { result ≡ rules_solved objective floors (entries_of run.now 2 n) }
{
    if n <= 255 {
        let mut ring = [0u16; 530];
        return carry_in(objective, floors, run, n, walk, i, &mut ring);
    }
    let mut ring = [0u16; 16400];
    carry_in(objective, floors, run, n, walk, i, &mut ring)
}
