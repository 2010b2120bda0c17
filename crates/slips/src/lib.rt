// The slip of a book's plan, for partners to recheck: its outcome with its pair and direction, and the entries, weights and scale that
// prove it. Every function that can be called from outside is total.

#![tactic(auto)]

mod lent;
mod pass;
mod weights;

ghost use Rattle.slips.specs.Writing.{Plans, Slips, Writes};

use answers::{Plan, Refusal};
use lent::best_weights;
use lp::Outcome;
use records::{Book, Version};
use slip::{Slip, Weights};
use weights::conflict_weights;

// The slip of an accepted book's plan.
fn slip_for(book: &[u8], plan: Plan) -> Slip
    requires { Plans book.now plan }
    ensures { Slips book.now result }
{
    let outcome = plan.outcome;
    match outcome {
        Outcome::Infeasible => Slip {
            outcome,
            weights: conflict_weights(plan.witness),
        },
        Outcome::Unbounded(_, _) => Slip {
            outcome,
            weights: Weights::nothing(0),
        },
        Outcome::Optimal(v) => Slip {
            outcome,
            weights: best_weights(book, v),
        },
    }
}

// The slip of a book of version 2, or its refusal. Its outcome, pair and direction are its plan's; its entries, weights and scale are any
// that get a yes.
pub fn slip_of(book: &[u8]) -> Result<Slip, Refusal>
    ensures { Writes book.now result }
{
    let plan = planner::plan(&Book {
        version: Version::Two,
        bytes: book,
    })?;
    Ok(slip_for(book, plan))
}
