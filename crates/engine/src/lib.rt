// The engine: a chain of rules planned, with no byte of a book in sight. Exact arithmetic on 64-bit integers, equal function by function
// to the functional model of crate `model`. What a private function asks of its numbers is one record, and document 01's bounds answer
// it; the function below asks nothing. The walk goes by passes over the entries, and where these get long along the region's boundary.

#![tactic(auto)]

mod between;
mod carry;
mod edges;
mod entries;
mod grow;
mod insert;
mod optimum;
mod order;
mod scan;
mod seeking;
mod start;
mod turning;
mod verdict;
mod walk;

ghost use Rattle.std.specs.Prelude.{◌≡◌};
ghost use Rattle.engine.specs.Solving.{Solves};

use amounts::range::up_to;
use flooring::lay_floors;
use lp::{Certificate, Outcome, Point, Terms};

// What the walk along a chain of rules comes to: the outcome, the counts, the place and a certificate by index (0 and 1 are the floors, i
// + 2 is rule i), and the start pair, if one is held, with how often it was worked out. What is not used is zero, or None.
#[derive(Clone, Copy)]
pub struct Solution {
    pub outcome: Outcome,
    pub moves: usize,
    pub opened: usize,
    pub place: usize,
    pub certificate: Certificate,
    pub start: Option<Point>,
    pub restarts: usize,
}

// Plans n rules, which stand in a run of numbers from its seventh on (a, b, c each); the floors are laid out before them. None: some
// number is out of its range, or the run has no room.
pub fn solve(terms: Terms, run: &mut [i64], n: usize) -> Option<Solution>
    ensures { Solves terms n run.old result run.new }
{
    let objective = terms.objective;
    let floors = terms.floors;
    if !lay_floors(floors, &mut *run) {
        return None;
    }
    if up_to(32767, objective.p) & up_to(32767, objective.q) {
        if n <= (run.len() - 6) / 3 {
            return walk::walk_rules(objective, floors, run, n);
        }
    }
    None
}
