// Two books joined in runs that are lent.
ghost use Rattle.joining.specs.Joining.{Joins};
ghost use Rattle.joining.specs.Running.{Roomy};

use crate::JointRefusal;
use crate::read::{read_both, rename};
use answers::Plan;
use joint_terms::joined_terms;

// Accepted books' numbers are all in range, so that the engine plans their rules.
pub fn join_in(
    site: &[u8],
    tenant: &[u8],
    names: &mut [u16],
    entries: &mut [i64],
) -> Result<Plan, JointRefusal>
    requires { Roomy site.now tenant.now names.old entries.old }
    ensures { Joins site.now tenant.now result }
{
    let heads = read_both(site, tenant, &mut *names, &mut *entries)?;
    let first = heads.site;
    let second = heads.tenant;
    rename(&mut *names, first.n, second.n);
    let terms = joined_terms(first.terms, second.terms);
    let solution = engine::solve(terms, &mut *entries, first.n + second.n).unwrap();
    Ok(plans::plan_of(solution, &*names))
}
