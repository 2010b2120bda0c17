// A slip, by which a plan is rechecked without planning: the types that code and definitions share, what a slip must be to get a yes, and
// its laws (specs/, proofs/). The code is crates `finding`, which looks a record up, and `checking`, the checker; what more than one crate
// needs of a slip's numbers is here.

#![tactic(auto)]

ghost use Rattle.std.specs.Prelude.{◌≡◌};
ghost use Rattle.slip.specs.Facts.{ranges};
ghost use Rattle.slip.specs.Weights.{no_weights};

pub mod named;

use answers::Refusal;
use lp::Outcome;

// What a slip says besides its outcome: the scale, and how many of the three entries count, each with its weight. An entry's code is 0 for
// floor x, 1 for floor y and r + 1 for the rule in record r. All are numbers as they were handed over, in range or not.
#[derive(Clone, Copy)]
pub struct Weights {
    pub scale: i64,
    pub count: i64,
    pub first: i64,
    pub first_weight: i64,
    pub second: i64,
    pub second_weight: i64,
    pub third: i64,
    pub third_weight: i64,
}

impl Weights {
    // No entry at all, beside a scale.
    pub fn nothing(scale: i64) -> Weights
        ensures { result ≡ no_weights scale }
    {
        Weights {
            scale,
            count: 0,
            first: 0,
            first_weight: 0,
            second: 0,
            second_weight: 0,
            third: 0,
            third_weight: 0,
        }
    }
}

// A slip: the plan's three outcomes by value, and the weights beside them.
#[derive(Clone, Copy)]
pub struct Slip {
    pub outcome: Outcome,
    pub weights: Weights,
}

// What the checker says of a slip. Yes and no are document 02's words, which a bool inside a Result would not say.
#[derive(Clone, Copy)]
pub enum Verdict {
    Refused(Refusal),
    Yes,
    No,
}

// Whether a number is from low to high.
pub fn within(low: i64, z: i64, high: i64) -> bool
    ensures { result ≡ ranges low z high }
{
    (low..=high).contains(&z)
}
