// The walk along a chain of constraints: after each prefix it holds the start point, the cone of rays and the optimum, or the place where
// the system became infeasible, and it counts the constraints that broke the start point before them. Entries stand in one lent slice,
// the two floors first, and each constraint that arrives is scanned against those before it, until the walk goes over to the region's
// boundary.
ghost use Rattle.std.specs.Prelude.{◌≡◌, ◌+◌, ◌-◌};
ghost use Rattle.lp.specs.Prefixes.{one_if};
ghost use Rattle.lp.specs.Document.{tie as tie_of};
ghost use Rattle.model.specs.Step.{going as going_of, step as step_of, begin as begin_of};
ghost use Rattle.engine.specs.Entries.{entries as entries_of};
ghost use Rattle.engine.specs.Solving.{rules_solved};
ghost use Rattle.engine.specs.Sizes.{Counting, Stepping, Beginning, Walking};
ghost use Rattle.engine.specs.Carrying.{changes_over};

use crate::Solution;
use crate::carry::carry_on;
use crate::entries::entry;
use crate::optimum::{breaks, improved};
use crate::order::Order;
use crate::start::start;
use crate::verdict::solution;
use amounts::range::rule_in_range;
use exact::cone::{Climbing, Narrowing};
use exact::lines::Seen;
use exact::within::{gaining, keeps, narrow};
use lp::{Constraint, Floors, Functional, Point, Ray, Tie};
use model::{State, Walk};

// One more, if so.
pub fn counted(count: usize, so: bool) -> usize
    requires { Counting count }
    ensures { result ≡ count + one_if so }
{
    if so { count + 1 } else { count }
}

pub fn going(
    s: Point,
    cone: Option<(Ray, Ray)>,
    best: Option<Point>,
    moves: usize,
    opened: usize,
    restarts: usize,
) -> Walk
    requires { Counting opened }
    ensures { result ≡ going_of s cone best moves opened restarts }
{
    let opened = match best {
        None => opened + 1,
        Some(_) => opened,
    };
    Walk {
        state: State::Going(s, cone, best),
        moves,
        opened,
        restarts,
    }
}

// What the walk holds after one more constraint h, at index n.
pub fn step(order: &Order, entries: &[i64], n: usize, h: Constraint, walk: Walk) -> Walk
    requires { Stepping order.now.objective order.now.tie entries.now n h walk }
    ensures { result ≡ step_of order.now.tie order.now.objective (entries_of entries.now 0 n) n h walk }
{
    let state = walk.state;
    let State::Going(s, cone, best) = state else {
        return walk;
    };
    let broken = breaks(h, best);
    let moves = counted(walk.moves, broken);
    let opened = walk.opened;
    let kept = keeps(Seen { r: h, v: s });
    let restarts = counted(walk.restarts, !kept);
    let place = n - 1;
    match start(order.tie, entries, n, h, s, kept) {
        Ok(p) => {
            let wedge = narrow(Narrowing { h, cone });
            let next = improved(order, entries, n, h, wedge, best, broken);
            going(p, wedge, next, moves, opened, restarts)
        }
        Err(c) => Walk {
            state: State::Ended(place, c),
            moves,
            opened,
            restarts,
        },
    }
}

// Before the first rule: the floors' corner, and the two axes.
fn begin(objective: Functional, floors: Floors) -> Walk
    requires { Beginning objective floors }
    ensures { result ≡ begin_of floors objective }
{
    let corner = Point {
        x: floors.lx,
        y: floors.ly,
        d: 1,
    };
    let axes = Some((Ray { dx: 1, dy: 0 }, Ray { dx: 0, dy: 1 }));
    match gaining(Climbing {
        f: objective,
        cone: axes,
    }) {
        Some(_) => going(corner, axes, None, 0, 0, 0),
        None => going(corner, axes, Some(corner), 0, 0, 0),
    }
}

// Least x + y, then least x.
pub fn tie() -> Tie
    ensures { result ≡ tie_of }
{
    Tie {
        first: Functional { p: -1, q: -1 },
        second: Functional { p: -1, q: 0 },
    }
}

// How many entries the passes may look at: 16 for each rule of the chain, and 1,024 more, since on short chains passes are quicker.
fn allowed(n: usize) -> usize {
    if n <= 8190 {
        return 16 * n + 1024;
    }
    0
}

// What is left of a budget after a pass over i entries.
fn left_over(budget: usize, i: usize) -> usize
    ensures { result ≡ budget - i }
{
    if i < budget {
        return budget - i;
    }
    0
}

// Whether the walk goes over to the region's boundary: the budget is spent, so many rules are left that building the ring pays off, and its
// run has room for the chain.
fn pays(budget: usize, n: usize, rest: usize) -> bool
    ensures { result ≡ changes_over budget n rest }
{
    (budget < 1) & (48 < rest) & (n <= 8190)
}

// The walk along n rules, which stand after the floors. A rule is looked at before it is taken in, so that no pass of its own is made for
// that. Where a pair moves, a pass over the entries before the rule is made. Once these passes have looked at all entries that they may,
// the walk carries the region's boundary along instead, which costs more where few pairs move and less where many do.
pub fn walk_rules(objective: Functional, floors: Floors, run: &[i64], n: usize) -> Option<Solution>
    requires { Walking objective floors run.now n }
    ensures { result ≡ rules_solved objective floors (entries_of run.now 2 n) }
{
    let end = n + 2;
    let order = Order {
        objective,
        tie: tie(),
    };
    let mut walk = begin(objective, floors);
    let mut budget = allowed(n);
    for i in 2..end {
        let h = entry(run, i);
        if rule_in_range(h) {
            let moves = walk.moves;
            let restarts = walk.restarts;
            walk = step(&order, run, i, h, walk);
            if (moves < walk.moves) | (restarts < walk.restarts) {
                let next = i + 1;
                budget = left_over(budget, next);
                if pays(budget, n, end - next) {
                    return carry_on(objective, floors, run, n, walk, next);
                }
            }
        } else {
            return None;
        }
    }
    Some(solution(objective, walk))
}
