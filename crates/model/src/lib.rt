// The state of the walk along a chain of constraints, shared by the planner's code and the model that it equals.

#![tactic(auto)]

use lp::{Certificate, Constraint, Point, Ray};

// A point on a line, and the entry that makes it, with that entry's index.
#[derive(Clone, Copy)]
pub struct Met {
    pub index: usize,
    pub entry: Constraint,
    pub point: Point,
}

// Where the walk stands: ended at a place with its certificate, or going on with the start point, the cone of rays (all between two, or
// none) and the optimum (none where gains have no top). These are two states and no Result: a walk that has ended has not failed, since the
// place and the certificate are its answer.
#[derive(Clone, Copy)]
pub enum State {
    Ended(usize, Certificate),
    Going(Point, Option<(Ray, Ray)>, Option<Point>),
}

// The state with document 01's two counts, and how often the start point was worked out again.
#[derive(Clone, Copy)]
pub struct Walk {
    pub state: State,
    pub moves: usize,
    pub opened: usize,
    pub restarts: usize,
}
