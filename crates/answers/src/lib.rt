// What is handed back of a book: the refusal, which has one shape for every part of the product, or the plan; and the causes that refusals
// have. These types stand below the planner, which fills them, and the writer of lines, which shows them.

#![tactic(auto)]

ghost use Rattle.std.specs.Prelude.{◌≡◌};
ghost use Rattle.answers.specs.Cause.{number_of_cause};
ghost use Rattle.answers.specs.Refusal.{refusal};
ghost use Rattle.answers.specs.Saying.{said_of};

use lp::{Certificate, Outcome};

// What turns something back: the causes 1 to 19 of the published tables, in their order.
#[derive(Clone, Copy)]
pub enum Cause {
    Length,
    Version,
    Count,
    Objective,
    Tail,
    Link,
    Loop,
    Kind,
    Slope,
    Bound,
    Room,
    Label,
    Text,
    Product,
    Size,
    Objectives,
    Slip,
    Full,
    Empty,
}

impl Cause {
    // The number that the tables give a cause.
    pub fn number(self) -> u8
        ensures { result ≡ number_of_cause self }
    {
        match self {
            Cause::Length => 1,
            Cause::Version => 2,
            Cause::Count => 3,
            Cause::Objective => 4,
            Cause::Tail => 5,
            Cause::Link => 6,
            Cause::Loop => 7,
            Cause::Kind => 8,
            Cause::Slope => 9,
            Cause::Bound => 10,
            Cause::Room => 11,
            Cause::Label => 12,
            Cause::Text => 13,
            Cause::Product => 14,
            Cause::Size => 15,
            Cause::Objectives => 16,
            Cause::Slip => 17,
            Cause::Full => 18,
            Cause::Empty => 19,
        }
    }
}

// The number of the cause that turns something back, and the record that it names (0 where it names none). It is a number and no `Cause`,
// since document 01 lays it down, callers of C read it, and a line shows whatever number stands in a refusal.
#[derive(Clone, Copy)]
pub struct Refusal {
    pub number: u8,
    pub at: u16,
}

impl Refusal {
    // The refusal for a cause, with the record that it names.
    pub fn of(cause: Cause, at: u16) -> Refusal
        ensures { result ≡ refusal (number_of_cause cause) at }
    {
        Refusal {
            number: cause.number(),
            at,
        }
    }
}

// What an accepted book gets: its outcome, the two counts, and, where it is impossible, the place and a witness (else both zero). A
// witness's entries rise: 0 is floor x, 1 is floor y, and r + 1 is the rule in record r. Entries that it does not use come last, and are
// zero with their weights.
#[derive(Clone, Copy)]
pub struct Plan {
    pub outcome: Outcome,
    pub moves: usize,
    pub opened: usize,
    pub place: usize,
    pub witness: Certificate,
}

// What is said of a book: its plan, or else its refusal.
pub type Answer = Result<Plan, Refusal>;

// What is said of a plan and a refusal, if there is one: the refusal, where something is turned back, and else the plan.
pub fn said(refusal: Option<Refusal>, plan: Plan) -> Answer
    ensures { result ≡ said_of refusal plan }
{
    match refusal {
        Some(refusal) => Err(refusal),
        None => Ok(plan),
    }
}
