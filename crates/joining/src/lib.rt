// One plan of two books: a site's rules and then a tenant's, under the tenant's objective and the greater floors. Both books are of
// version 2 and are read once, one behind the other, into the same lent runs of numbers. The function that can be called from outside is
// total: it takes any two runs of bytes and answers.

#![tactic(auto)]

mod read;
mod run;

ghost use Rattle.std.specs.Prelude.{◌≡◌, ◌+◌, ◌*◌, ◌≤◌};
ghost use Rattle.joining.specs.Joining.{Joins};
ghost use Rattle.joining.specs.Running.{BothFew, both_within};

use answers::{Plan, Refusal};
use run::join_in;

// The site's refusal; else the tenant's.
#[derive(Clone, Copy)]
pub enum JointRefusal {
    Site(Refusal),
    Tenant(Refusal),
}

// Of books with at most RULES rules each. Each size is an instance of its own.
fn join_sized<const RULES: usize, const NAMES: usize, const NUMBERS: usize>(
    site: &[u8],
    tenant: &[u8],
) -> Result<Plan, JointRefusal>
    requires few { BothFew site.now tenant.now RULES }
    requires most { RULES ≤ 4095 }
    requires names { NAMES ≡ 2 * RULES }
    requires numbers { NUMBERS ≡ 6 * RULES + 6 }
    ensures { Joins site.now tenant.now result }
{
    let mut names = [0u16; NAMES];
    let mut entries = [0i64; NUMBERS];
    join_in(site, tenant, &mut names, &mut entries)
}

// Whether neither book has more bytes than this.
fn within(site: &[u8], tenant: &[u8], bytes: usize) -> bool
    ensures { result ≡ both_within site.now tenant.now bytes }
{
    site.len() <= bytes && tenant.len() <= bytes
}

// Of ones with 255 at most.
fn join_few(site: &[u8], tenant: &[u8]) -> Result<Plan, JointRefusal>
    requires { BothFew site.now tenant.now 255 }
    ensures { Joins site.now tenant.now result }
{
    if within(site, tenant, 434) {
        join_sized::<30, 60, 186>(site, tenant)
    } else {
        join_sized::<255, 510, 1536>(site, tenant)
    }
}

// Of any books. It has the long runs in its frame, and laying that out takes a third of what two short books take: so who knows that both
// are short goes to `join_few`.
fn join_any(site: &[u8], tenant: &[u8]) -> Result<Plan, JointRefusal>
    ensures { Joins site.now tenant.now result }
{
    if within(site, tenant, 3584) {
        join_few(site, tenant)
    } else {
        join_sized::<4095, 8190, 24576>(site, tenant)
    }
}

// The plan of two books, or the refusal of one of them. Every field is fixed by the bytes but the witness, which is any valid one: in it
// 0 is floor x, 1 is floor y, r + 1 is the rule in the site's record r, and 4,097 + r the rule in the tenant's record r. A long
// site and a long tenant each have a call of `join_any`, since a function that is called in one place is compiled into it, with its frame.
pub fn join(site: &[u8], tenant: &[u8]) -> Result<Plan, JointRefusal>
    ensures { Joins site.now tenant.now result }
{
    if site.len() > 3584 {
        return join_any(site, tenant);
    }
    if tenant.len() > 3584 {
        return join_any(site, tenant);
    }
    join_few(site, tenant)
}
