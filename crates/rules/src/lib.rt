// What a rule record's rule stands for: the constraint that it is planned as.

#![tactic(auto)]

ghost use Rattle.std.specs.Prelude.{◌≡◌};
ghost use Rattle.records.specs.Planned.{planned_rule};

use lp::Constraint;
use records::Rule;

// A rule as it is planned: at most, so that kind 2 is turned round. Its numbers are wider then, so that each has its opposite.
pub fn constraint(rule: Rule) -> Constraint
    ensures { result ≡ planned_rule rule }
{
    let a = i64::from(rule.a);
    let b = i64::from(rule.b);
    let c = i64::from(rule.c);
    let kind = rule.kind;
    if kind == 2 {
        Constraint {
            a: -a,
            b: -b,
            c: -c,
        }
    } else {
        Constraint { a, b, c }
    }
}
