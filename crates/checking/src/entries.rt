// The chain in the runs that the book was read into: a rule at a place, the rule in a record, and the two tests of every rule.
ghost use Rattle.std.specs.Prelude.{◌≡◌, pos};
ghost use Rattle.std.specs.Int.Signed.{le_z};
ghost use Rattle.lp.specs.Program.{rise};
ghost use Rattle.lp.specs.Outcome.{every, keeps as keeps_of};
ghost use Rattle.slip.specs.Facts.{rule_in};
ghost use Rattle.slip.specs.Runs.{entry as entry_of, entries as entries_of, indices, Room, Finding, Checking, Rising};

use exact::lines;
use exact::within::{keeps, stays};
use lp::{Constraint, Point, Ray};

fn entry(run: &[i64], k: usize) -> Constraint
    requires { Room run.now k }
    ensures { result ≡ entry_of run.now k }
{
    let at = 3 * k;
    Constraint {
        a: run[at],
        b: run[at + 1],
        c: run[at + 2],
    }
}

// The rule in a record, if it is one of the chain's n.
pub fn rule_in(records: &[u16], rules: &[i64], n: usize, wanted: u64) -> Option<Constraint>
    requires { Finding records.now rules.now n }
    ensures { result ≡ rule_in (indices records.now 0 n) (entries_of rules.now 0 n) wanted }
{
    let at = finding::place(&records[..n], wanted)?;
    Some(entry(rules, at))
}

// Whether a point keeps each of n rules.
pub fn keeps_all(rules: &[i64], n: usize, v: Point) -> bool
    requires { Checking rules.now n v }
    ensures { result ≡ every (λ r. keeps_of r v) (entries_of rules.now 0 n) }
{
    for i in 0..n {
        let r = entry(rules, i);
        if !keeps(lines::Seen { r, v }) {
            return false;
        }
    }
    true
}

// Whether each of n rules is never left along a ray.
pub fn stays_all(rules: &[i64], n: usize, d: Ray) -> bool
    requires { Rising rules.now n d }
    ensures { result ≡ every (λ r. le_z (rise r d) (pos 0)) (entries_of rules.now 0 n) }
{
    for i in 0..n {
        let r = entry(rules, i);
        if !stays(lines::Rising { r, d }) {
            return false;
        }
    }
    true
}
