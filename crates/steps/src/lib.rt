// The steps of a session: a start, a rule added, the latest rule withdrawn. Each hands back the next state with the plan of the rules that
// are held, worked out anew, since 64 rules take a few microseconds. A step takes a session only as a start or an earlier step handed it
// back, which is what `IsSession` says.

#![tactic(auto)]

mod check;
mod plan;
mod state;

ghost use Rattle.answers.specs.Cause.{number_of_cause};
ghost use Rattle.sessions.specs.Sessions.{IsSession};
ghost use Rattle.sessions.specs.Steps.{Leads, Starts, Adds, Withdraws, Stays};

use answers::{Cause, Refusal};
use check::{cause_of_adding, lawful_objective};
use plan::plan_held;
use records::Rule;
use sessions::{Session, Step};
use state::{begun, longer, shorter};

// A step that is taken, and leads to a session.
fn taken(session: Session) -> Step
    requires { IsSession session }
    ensures { Leads session None result }
{
    let plan = plan_held(session);
    Step {
        session,
        refusal: None,
        plan,
    }
}

// One that is refused.
fn refused(session: Session, cause: Cause, at: u16) -> Step
    requires { IsSession session }
    ensures { Stays session (number_of_cause cause) at result }
{
    let refusal = Refusal::of(cause, at);
    let plan = plan_held(session);
    Step {
        session,
        refusal: Some(refusal),
        plan,
    }
}

// A session without rules, under an objective and floors. One that is refused is empty, objective and floors 0.
pub fn start(p: i16, q: i16, lx: i16, ly: i16) -> Step
    ensures { Starts p q lx ly result }
{
    if lawful_objective(p, q) {
        taken(begun(p, q, lx, ly))
    } else {
        refused(begun(0, 0, 0, 0), Cause::Objective, 0)
    }
}

// Adds a rule behind those held.
pub fn add(session: Session, rule: Rule) -> Step
    requires { IsSession session }
    ensures { Adds session rule result }
{
    let n = session.n;
    if n >= 64 {
        return refused(session, Cause::Full, 0);
    }
    if let Some(cause) = cause_of_adding(session, rule) {
        return refused(session, cause, n as u16 + 1);
    }
    taken(longer(session, rule))
}

// Withdraws the latest rule.
pub fn withdraw(session: Session) -> Step
    requires { IsSession session }
    ensures { Withdraws session result }
{
    if session.n == 0 {
        return refused(session, Cause::Empty, 0);
    }
    taken(shorter(session))
}
