// What a walk comes to: the outcome, and where it is infeasible its place and certificate, else the start point. What an outcome does not
// use is zero, or None.
ghost use Rattle.std.specs.Prelude.{◌≡◌};
ghost use Rattle.model.specs.Step.{said as said_of};
ghost use Rattle.engine.specs.Solving.{solution_of};
ghost use Rattle.engine.specs.Sizes.{Gaining, Answering};

use crate::Solution;
use exact::cone::Climbing;
use exact::within::gaining;
use fraction::reduce_ray;
use lp::{Certificate, Functional, Outcome, Point, Ray};
use model::{State, Walk};

// The outcome of a feasible system.
fn said(objective: Functional, s: Point, cone: Option<(Ray, Ray)>, best: Option<Point>) -> Outcome
    requires { Gaining objective cone }
    ensures { result ≡ said_of objective (State.Going s cone best) }
{
    match best {
        None => match gaining(Climbing { f: objective, cone }) {
            Some(d) => Outcome::Unbounded(s, reduce_ray(d)),
            None => Outcome::Optimal(s),
        },
        Some(v) => Outcome::Optimal(v),
    }
}

pub fn solution(objective: Functional, walk: Walk) -> Solution
    requires { Answering objective walk }
    ensures { result ≡ solution_of objective walk }
{
    let state = walk.state;
    match state {
        State::Ended(place, certificate) => Solution {
            outcome: Outcome::Infeasible,
            moves: walk.moves,
            opened: walk.opened,
            place,
            certificate,
            start: None,
            restarts: walk.restarts,
        },
        State::Going(s, cone, best) => Solution {
            outcome: said(objective, s, cone, best),
            moves: walk.moves,
            opened: walk.opened,
            place: 0,
            certificate: Certificate {
                first: 0,
                first_weight: 0,
                second: 0,
                second_weight: 0,
                third: 0,
                third_weight: 0,
            },
            start: Some(s),
            restarts: walk.restarts,
        },
    }
}
