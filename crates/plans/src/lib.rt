// What a list of rules is planned as, with a name for each rule: what single books, joined books and sessions share. It knows no bytes.

#![tactic(auto)]

ghost use Rattle.std.specs.Prelude.{◌≡◌};
ghost use Rattle.plans.specs.Planning.{plan_of};

use answers::Plan;
use engine::Solution;

// The plan of a list of rules, from what the walk along them came to and the rules' names, with its witness by name.
pub fn plan_of(solution: Solution, names: &[u16]) -> Plan
    ensures { result ≡ plan_of names.now solution }
{
    let outcome = solution.outcome;
    let certificate = solution.certificate;
    Plan {
        outcome,
        moves: solution.moves,
        opened: solution.opened,
        place: solution.place,
        witness: witness::witness(names, certificate),
    }
}
