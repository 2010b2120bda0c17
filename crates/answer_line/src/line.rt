// The line of an answer but for its line feed, part by part, on a line that has room for it.
ghost use Rattle.text.specs.Line.{RoomIn, Added};
ghost use Rattle.report.specs.Line.{counts, best, unlimited, impossible, fields, answer_fields};

use crate::entries::append_witness;
use answers::{Answer, Plan};
use lp::{Outcome, Point, Ray};
use numerals::append_number;
use pairs::{append_direction, append_pair};
use refusal_text::append_refused;
use report::Naming;
use text::{Line, append_word};

// The two counts: moves and open.
fn append_counts(plan: Plan, line: &mut Line)
    requires { RoomIn line.old 42 }
    ensures { Added line.old (counts plan) 42 line.new }
{
    append_number(plan.moves, line);
    append_number(plan.opened, line);
}

// The line of a best pair, but for its line feed.
fn append_best(plan: Plan, v: Point, line: &mut Line)
    requires { RoomIn line.old 109 }
    ensures { Added line.old (best plan v) 109 line.new }
{
    append_word(b"best", line);
    append_pair(v, line);
    append_counts(plan, line);
}

// The line of an unlimited book, but for its line feed.
fn append_unlimited(plan: Plan, v: Point, d: Ray, line: &mut Line)
    requires { RoomIn line.old 156 }
    ensures { Added line.old (unlimited plan v d) 156 line.new }
{
    append_word(b"unlimited", line);
    append_pair(v, line);
    append_direction(d, line);
    append_counts(plan, line);
}

// The line of an impossible book, but for its line feed.
fn append_impossible(naming: Naming, plan: Plan, line: &mut Line)
    requires { RoomIn line.old 223 }
    ensures { Added line.old (impossible naming plan) 223 line.new }
{
    append_word(b"impossible", line);
    append_number(plan.place, line);
    append_counts(plan, line);
    append_witness(naming, plan.witness, line);
}

// The line of a plan, but for its line feed.
fn append_plan(naming: Naming, plan: Plan, line: &mut Line)
    requires { RoomIn line.old 223 }
    ensures { Added line.old (fields naming plan plan.outcome) 223 line.new }
{
    let outcome = plan.outcome;
    match outcome {
        Outcome::Infeasible => append_impossible(naming, plan, line),
        Outcome::Unbounded(v, d) => append_unlimited(plan, v, d, line),
        Outcome::Optimal(v) => append_best(plan, v, line),
    }
}

// The line of an answer, but for its line feed.
pub fn append_fields(naming: Naming, answer: Answer, line: &mut Line)
    requires { RoomIn line.old 223 }
    ensures { Added line.old (answer_fields naming answer) 223 line.new }
{
    match answer {
        Err(refusal) => append_refused(refusal.number, refusal.at, line),
        Ok(plan) => append_plan(naming, plan, line),
    }
}
