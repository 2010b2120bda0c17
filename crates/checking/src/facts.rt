// Document 02's facts, tested: of an allowed pair, of a lawful direction, of weighted sums; and what is said of a slip of each outcome.
ghost use Rattle.std.specs.Prelude.{◌≡◌};
ghost use Rattle.lp.specs.declared.Outcome.TheVariants as outcome;
ghost use Rattle.lp.specs.Program.{system};
ghost use Rattle.lp.specs.Outcome.{allowed as allowed_of};
ghost use Rattle.slip.specs.Facts.{answered, in_range, holds, judged as judged_of};
ghost use Rattle.slip.specs.Slots.{tight_of, balanced_of, refutes_of, proves_of, said_of, refused_as};
ghost use Rattle.slip.specs.Slots.{Tight, Proving};
ghost use Rattle.slip.specs.Runs.{entries, indices, Chain, Allowing, Balancing};

use crate::entries::{keeps_all, stays_all};
use crate::named::{floor_x, floor_y, looked_up, sound, total};
use crate::sums::{pair_in_range, ray_in_range, same, scaled};
use answers::{Cause, Refusal};
use exact::lines::{Gaining, Seen};
use exact::within::{gains, keeps, tight};
use lp::{Constraint, Floors, Functional, Outcome, Point, Ray, Terms};
use slip::named::Slots;
use slip::{Slip, Verdict, Weights, within};

// An allowed pair keeps both floors and every rule.
fn allowed(floors: Floors, rules: &[i64], n: usize, v: Point) -> bool
    requires { Allowing floors rules.now n v }
    ensures { result ≡ allowed_of (system floors (entries rules.now 0 n)) v }
{
    let x = floor_x(floors);
    if keeps(Seen { r: x, v }) {
        let y = floor_y(floors);
        if keeps(Seen { r: y, v }) {
            return keeps_all(rules, n, v);
        }
    }
    false
}

// Each entry holds with equality.
fn all_tight(s: Slots, v: Point) -> bool
    requires { Tight s v }
    ensures { result ≡ tight_of s v }
{
    tight(Seen { r: s.first.rule, v })
        & tight(Seen {
            r: s.second.rule,
            v,
        })
        & tight(Seen { r: s.third.rule, v })
}

// The weighted sums of a and b are scale times p and q.
fn balanced(sums: Constraint, scale: i64, f: Functional) -> bool
    requires { Balancing scale f }
    ensures { result ≡ balanced_of sums scale f }
{
    scaled(sums.a, scale, f.p) & scaled(sums.b, scale, f.q)
}

// The weighted sums of a and b are 0, and that of c is below 0.
fn refutes(sums: Constraint) -> bool
    ensures { result ≡ refutes_of sums }
{
    same(sums.a, 0) & same(sums.b, 0) & (sums.c < 0)
}

fn said(facts: bool) -> Verdict
    ensures { result ≡ said_of facts }
{
    if facts { Verdict::Yes } else { Verdict::No }
}

// A slip that is out of range.
pub fn refused() -> Verdict
    ensures { result ≡ refused_as 17 }
{
    Verdict::Refused(Refusal::of(Cause::Slip, 0))
}

// Of an impossible book.
fn conflict(t: Terms, records: &[u16], rules: &[i64], n: usize, w: Weights) -> Verdict
    requires { Chain t records.now rules.now n }
    ensures { result ≡ answered
        (in_range t (indices records.now 0 n) (entries rules.now 0 n) outcome.Infeasible w)
        (holds t (indices records.now 0 n) (entries rules.now 0 n) outcome.Infeasible w) }
{
    let slots = looked_up(t.floors, records, rules, n, w);
    if within(1, w.count, 3) & sound(slots, w) {
        said(refutes(total(slots)))
    } else {
        refused()
    }
}

// Of an unlimited one: a lawful direction leaves no rule, and gains.
fn unlimited(
    t: Terms,
    records: &[u16],
    rules: &[i64],
    n: usize,
    v: Point,
    d: Ray,
    w: Weights,
) -> Verdict
    requires { Chain t records.now rules.now n }
    ensures { result ≡ answered
        (in_range t (indices records.now 0 n) (entries rules.now 0 n) (outcome.Unbounded v d) w)
        (holds t (indices records.now 0 n) (entries rules.now 0 n) (outcome.Unbounded v d) w) }
{
    if pair_in_range(v) & ray_in_range(d) {
        let kept = allowed(t.floors, rules, n, v);
        let gaining = Gaining { f: t.objective, d };
        said(kept & stays_all(rules, n, d) & gains(gaining))
    } else {
        refused()
    }
}

// The facts of a best pair, with its entries looked up. The pass over the rules comes last, so that it holds
// nothing but the pair: with the entries held too it takes half as long again.
fn proves(t: Terms, rules: &[i64], n: usize, v: Point, slots: Slots, scale: i64) -> bool
    requires { Proving t rules.now n v slots scale }
    ensures { result ≡ proves_of t (entries rules.now 0 n) v slots scale }
{
    (all_tight(slots, v) & balanced(total(slots), scale, t.objective))
        && allowed(t.floors, rules, n, v)
}

// Of one with a best pair.
fn best(t: Terms, records: &[u16], rules: &[i64], n: usize, v: Point, w: Weights) -> Verdict
    requires { Chain t records.now rules.now n }
    ensures { result ≡ answered
        (in_range t (indices records.now 0 n) (entries rules.now 0 n) (outcome.Optimal v) w)
        (holds t (indices records.now 0 n) (entries rules.now 0 n) (outcome.Optimal v) w) }
{
    let slots = looked_up(t.floors, records, rules, n, w);
    if pair_in_range(v) & within(1, w.scale, 2147352578) & within(0, w.count, 2) & sound(slots, w) {
        said(proves(t, rules, n, v, slots, w.scale))
    } else {
        refused()
    }
}

// What is said of a slip for a chain.
pub fn judged(t: Terms, records: &[u16], rules: &[i64], n: usize, s: Slip) -> Verdict
    requires { Chain t records.now rules.now n }
    ensures { result ≡ judged_of t (indices records.now 0 n) (entries rules.now 0 n) s }
{
    let w = s.weights;
    match s.outcome {
        Outcome::Infeasible => conflict(t, records, rules, n, w),
        Outcome::Unbounded(v, d) => unlimited(t, records, rules, n, v, d, w),
        Outcome::Optimal(v) => best(t, records, rules, n, v, w),
    }
}
