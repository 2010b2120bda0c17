// Whether runs have room and numbers are within their ranges, asked before anything is computed of them.
ghost use Rattle.std.specs.Prelude.{◌≡◌};
ghost use Rattle.lp.specs.Outcome.{every};
ghost use Rattle.amounts.specs.Tests.{rule_in_range};
ghost use Rattle.engine.specs.Entries.{entries};
ghost use Rattle.region.specs.Listing.{is_rule, roomy, taken};
ghost use Rattle.region.specs.Asked.{Testing};

use crate::edges::entry;
use amounts::range::{floors_in_range, rule_in_range};
use lp::Floors;

// Every one of n rules, which stand from entry 2 on.
fn rules_in_range(run: &[i64], n: usize) -> bool
    requires { Testing run.now n }
    ensures { result ≡ every rule_in_range (entries run.now 2 n) }
{
    let end = n + 2;
    for i in 2..end {
        if !rule_in_range(entry(run, i)) {
            return false;
        }
    }
    true
}

// Entry k is one of n rules.
fn is_rule(n: usize, k: usize) -> bool
    ensures { result ≡ is_rule n k }
{
    if k < 2 { false } else { k - 2 < n }
}

// Every index of the order is that of one of n rules.
fn names_rules(order: &[u16], n: usize) -> bool
    ensures { result ≡ every (is_rule n) order.now }
{
    for &k in order {
        if !is_rule(n, k as usize) {
            return false;
        }
    }
    true
}

// The runs, by their lengths, have room for n rules between the floors and the horizon, for a ring of all rules that enter, and for its
// corners.
fn has_room(run: usize, n: usize, order: usize, ring: usize, out: usize) -> bool
    ensures { result ≡ roomy run n order ring out }
{
    if 65533 < n {
        return false;
    }
    if run < 3 * (n + 3) {
        return false;
    }
    if ring < 4 {
        return false;
    }
    if ring - 4 < order {
        return false;
    }
    order + 3 <= out / 3
}

pub fn is_taken(
    floors: Floors,
    run: &[i64],
    n: usize,
    order: &[u16],
    ring: usize,
    out: usize,
) -> bool
    ensures { result ≡ taken floors run.now n order.now ring out }
{
    if has_room(run.len(), n, order.len(), ring, out) {
        if floors_in_range(floors) {
            if rules_in_range(run, n) {
                return names_rules(order, n);
            }
        }
    }
    false
}
