// The answers to many objectives, from rules that stand in a run of numbers: the corners of their region are listed once, and its rays are
// worked out once, and each objective gets the outcome and the pair that a plan alone would give. It takes any numbers, runs and bytes.

#![tactic(auto)]

mod offers;
mod picks;
mod rays;

ghost use Rattle.offering.specs.Answering.{Answers};

use answers::Cause;
use lp::Floors;
use objectives::cause;
use offers::offer_all;

// Why objectives get no answers. Outside: some number is out of its range, or a run has no room. Declined: a cause turns them back.
#[derive(Clone, Copy)]
pub enum Unanswered {
    Outside,
    Declined(Cause),
}

// The answers to up to 32 objectives, 32 bytes each, at the start of the output, for the rules that stand in the run from its seventh
// number on, as many as the order is long; and how many bytes they are. What is turned back leaves the output as it was.
pub fn answer(
    floors: Floors,
    run: &mut [i64],
    order: &mut [u16],
    ring: &mut [u16],
    corners: &mut [i64],
    objectives: &[u8],
    out: &mut [u8],
) -> Result<usize, Unanswered>
    ensures { Answers floors run.old order.old ring.old corners.old
        objectives.now out.old result run.new order.new ring.new corners.new
        out.new }
{
    if let Some(cause) = cause(objectives, out.len()) {
        return Err(Unanswered::Declined(cause));
    }
    let n = order.len();
    let listed = laying::lay_sampled(floors, &mut *run, order, ring, &mut *corners);
    offer_all(listed, &*run, n, &*corners, objectives, out)
}
