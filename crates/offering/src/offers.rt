// The answers of a batch, from what the rules come to whatever the objective is: the corners of their region and its rays.
ghost use Rattle.std.specs.Prelude.{◌≡◌, ◌++◌, ◌*◌, length, drop};
ghost use Rattle.objectives.specs.Objectives.{objectives_of};
ghost use Rattle.cells.specs.Cells.{stored};
ghost use Rattle.offering.specs.Offers.{offer_bytes};
ghost use Rattle.offering.specs.Listed.{points_from, offer_in, answers_by};
ghost use Rattle.offering.specs.Asked.{Offering, Filling, Filled, Fills};

use crate::Unanswered;
use crate::picks::best;
use crate::rays::rays;
use cells::put_answer;
use exact::cone::Climbing;
use exact::within::gaining;
use lp::{Functional, Point, Ray};
use objectives::objective;

// What an objective is answered: the best pair, the start pair where the objective has no limit, or that no pair is allowed.
#[derive(Clone, Copy)]
pub enum Offer {
    Best(Point),
    Unlimited(Point),
    Impossible,
}

// An answer into the output: its outcome as a number, and its pair.
fn put_offer(out: &mut [u8], at: usize, offer: Offer)
    ensures { out.new ≡ stored out.old at 32 (offer_bytes offer) }
{
    match offer {
        Offer::Best(point) => put_answer(out, at, 1, point),
        Offer::Unlimited(start) => put_answer(out, at, 2, start),
        Offer::Impossible => put_answer(out, at, 3, Point { x: 0, y: 0, d: 0 }),
    }
}

// Of one objective. Without a corner nothing is allowed. Along a ray that gains there is no best, and the start pair is answered.
fn offered(
    f: Functional,
    cone: Option<(Ray, Ray)>,
    start: Point,
    corners: &[i64],
    count: usize,
) -> Offer
    requires { Offering f cone start corners.now count }
    ensures { result ≡ offer_in cone (points_from corners.now 0 count) f }
{
    if count == 0 {
        return Offer::Impossible;
    }
    match gaining(Climbing { f, cone }) {
        Some(_) => Offer::Unlimited(start),
        None => Offer::Best(best(f, corners, count)),
    }
}

// Of all objectives, one after the other. The start pair is the first corner for an objective that earns nothing anywhere.
fn fill(cone: Option<(Ray, Ray)>, corners: &[i64], count: usize, objectives: &[u8], out: &mut [u8])
    requires { Filling cone corners.now count objectives.now out.old }
    ensures { out.new ≡ answers_by (offer_in cone (points_from corners.now 0 count))
        (objectives_of objectives.now) ++ drop (8 * length objectives.now) out.old }
{
    let start = best(Functional { p: 0, q: 0 }, corners, count);
    let total = objectives.len() / 4;
    for i in 0..total {
        let offer = offered(objective(objectives, i), cone, start, corners, count);
        put_offer(&mut *out, 32 * i, offer);
    }
}

// With what was listed: the rays of the rules, and the answers.
pub fn offer_all(
    listed: Option<usize>,
    run: &[i64],
    n: usize,
    corners: &[i64],
    objectives: &[u8],
    out: &mut [u8],
) -> Result<usize, Unanswered>
    requires { Filled listed n run.now corners.now objectives.now out.old }
    ensures { Fills listed n run.now corners.now objectives.now out.old
        result out.new }
{
    match listed {
        None => Err(Unanswered::Outside),
        Some(count) => {
            fill(rays(run, n), corners, count, objectives, out);
            Ok(8 * objectives.len())
        }
    }
}
