// What two books are planned under: the tenant's objective, and of each floor the greater. The function that can be called from outside is
// total.

#![tactic(auto)]

ghost use Rattle.std.specs.Prelude.{◌≡◌};
ghost use Rattle.joint_terms.specs.Terms.{joined_terms};

use lp::{Floors, Terms};

// The terms of both.
pub fn joined_terms(site: Terms, tenant: Terms) -> Terms
    ensures { result ≡ joined_terms site tenant }
{
    let first = site.floors;
    let second = tenant.floors;
    let objective = tenant.objective;
    let lx = first.lx.max(second.lx);
    let ly = first.ly.max(second.ly);
    let floors = Floors { lx, ly };
    Terms { objective, floors }
}
