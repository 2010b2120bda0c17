// A step of the walk that carries the region's boundary along. Where the new constraint h has cut it, in the gap between two edges, a start
// point or an optimum that moves, moves to an end of the new edge, so that no pass over the entries is made. Where the edge ends at
// infinity, or h has not cut the boundary, a pass is made if a point moves at all. The functions stand beside those of the plain walk and
// call none of them: a function with one caller is compiled into it, and so the plain walk stays quick.
ghost use Rattle.std.specs.Prelude.{◌≡◌};
ghost use Rattle.lp.specs.Outcome.{gain_order};
ghost use Rattle.model.specs.Step.{tightest_point, improved as improved_of, step as step_of};
ghost use Rattle.engine.specs.Entries.{entries as entries_of};
ghost use Rattle.engine.specs.Start.{kept_or_restarted};
ghost use Rattle.engine.specs.Carrying.{end_point, Ends, RestartingAt, MovingAt, ImprovingAt, SteppingAt};

use crate::optimum::breaks;
use crate::order::{Order, tie_upward, upward};
use crate::scan::tightest;
use crate::start::{alone, is_level, resettled};
use crate::walk::{counted, going};
use exact::cone::{Climbing, Narrowing};
use exact::lines::{Crossing, Line, Seen};
use exact::within::{direction, facing, gaining, keeps, meet, narrow};
use fraction::reduce;
use lp::{Certificate, Constraint, Point, Ray, Tie};
use model::{State, Walk};

// The two edges between which a constraint has cut the boundary: the ring goes from the one to it, and from it to the other.
#[derive(Clone, Copy)]
pub struct Gap {
    pub before: Constraint,
    pub behind: Constraint,
}

// The end of the new edge in the direction in which its line is walked.
fn end_point(up: bool, h: Constraint, gap: Gap) -> Point
    requires { Ends h gap }
    ensures { result ≡ end_point up h gap }
{
    if up {
        meet(Crossing {
            r: gap.before,
            s: h,
        })
    } else {
        meet(Crossing {
            r: h,
            s: gap.behind,
        })
    }
}

fn start_at(
    tie: Tie,
    entries: &[i64],
    n: usize,
    h: Constraint,
    s: Point,
    kept: bool,
    gap: Option<Gap>,
) -> Result<Point, Certificate>
    requires { RestartingAt tie entries.now n h gap }
    ensures { result ≡ kept_or_restarted tie (entries_of entries.now 0 n) n h s kept }
{
    if kept {
        return Ok(s);
    }
    if is_level(h) {
        return Err(alone(n));
    }
    let side = tie_upward(tie, direction(Line { h }));
    if let Some(gap) = gap {
        let p = end_point(side, h, gap);
        if 0 < p.d {
            return Ok(reduce(p));
        }
    }
    let found = tightest(entries, n, facing(side, Line { h }));
    resettled(entries, side, n, h, found)
}

fn moved_to(order: &Order, entries: &[i64], n: usize, h: Constraint, gap: Option<Gap>) -> Point
    requires { MovingAt order.now.objective order.now.tie entries.now n h gap }
    ensures { result ≡ tightest_point (gain_order order.now.objective order.now.tie) (entries_of entries.now 0 n) h }
{
    let side = upward(order, direction(Line { h }));
    if let Some(gap) = gap {
        let p = end_point(side, h, gap);
        if 0 < p.d {
            return reduce(p);
        }
    }
    match tightest(entries, n, facing(side, Line { h })) {
        None => Point { x: 0, y: 0, d: 1 },
        Some(met) => reduce(met.point),
    }
}

// The best pair after one more constraint; broken says whether it broke it.
fn improved_at(
    order: &Order,
    entries: &[i64],
    n: usize,
    h: Constraint,
    cone: Option<(Ray, Ray)>,
    best: Option<Point>,
    broken: bool,
    gap: Option<Gap>,
) -> Option<Point>
    requires { ImprovingAt order.now.objective order.now.tie entries.now n h cone best broken gap }
    ensures { result ≡ improved_of (gain_order order.now.objective order.now.tie) order.now.objective
        (entries_of entries.now 0 n) h cone best }
{
    match best {
        None => match gaining(Climbing {
            f: order.objective,
            cone,
        }) {
            Some(_) => None,
            None => Some(moved_to(order, entries, n, h, gap)),
        },
        Some(v) => {
            if broken {
                Some(moved_to(order, entries, n, h, gap))
            } else {
                Some(v)
            }
        }
    }
}

// What the walk holds after one more constraint h, at index n. The gap is that in which h has cut the boundary, if it has.
pub fn step_at(
    order: &Order,
    entries: &[i64],
    n: usize,
    h: Constraint,
    walk: Walk,
    gap: Option<Gap>,
) -> Walk
    requires { SteppingAt order.now.objective order.now.tie entries.now n h walk gap }
    ensures { result ≡ step_of order.now.tie order.now.objective (entries_of entries.now 0 n) n h walk }
{
    let state = walk.state;
    let State::Going(s, cone, best) = state else {
        return walk;
    };
    let broken = breaks(h, best);
    let moves = counted(walk.moves, broken);
    let opened = walk.opened;
    let kept = keeps(Seen { r: h, v: s });
    let restarts = counted(walk.restarts, !kept);
    let place = n - 1;
    match start_at(order.tie, entries, n, h, s, kept, gap) {
        Ok(p) => {
            let wedge = narrow(Narrowing { h, cone });
            let next = improved_at(order, entries, n, h, wedge, best, broken, gap);
            going(p, wedge, next, moves, opened, restarts)
        }
        Err(c) => Walk {
            state: State::Ended(place, c),
            moves,
            opened,
            restarts,
        },
    }
}
