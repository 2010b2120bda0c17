// Both books read into the same two runs, the tenant's chain behind the site's, and the tenant's records named apart from the site's.
ghost use Rattle.joining.specs.Running.{Behind, ReadsBehind, Roomy, ReadsBoth, Renaming, Renamed};

use crate::JointRefusal;
use answers::Refusal;
use book::Head;
use records::{Book, Version};

// What the two books read as, but for their chains.
#[derive(Clone, Copy)]
pub struct Heads {
    pub site: Head,
    pub tenant: Head,
}

// Reads a book into the runs behind n rules that stand there.
fn read_behind(
    bytes: &[u8],
    names: &mut [u16],
    entries: &mut [i64],
    n: usize,
) -> Result<Head, Refusal>
    requires { Behind names.old entries.old n }
    ensures { ReadsBehind bytes.now n names.old entries.old result names.new entries.new }
{
    let at = 6 + 3 * n;
    let book = Book {
        version: Version::Two,
        bytes,
    };
    reading::read(&book, &mut names[n..], &mut entries[at..])
}

// Reads both. The site's refusal comes before any of the tenant's.
pub fn read_both(
    site: &[u8],
    tenant: &[u8],
    names: &mut [u16],
    entries: &mut [i64],
) -> Result<Heads, JointRefusal>
    requires { Roomy site.now tenant.now names.old entries.old }
    ensures { ReadsBoth site.now tenant.now result names.new entries.new }
{
    match read_behind(site, &mut *names, &mut *entries, 0) {
        Err(refusal) => Err(JointRefusal::Site(refusal)),
        Ok(site) => match read_behind(tenant, names, entries, site.n) {
            Err(refusal) => Err(JointRefusal::Tenant(refusal)),
            Ok(tenant) => Ok(Heads { site, tenant }),
        },
    }
}

// Names the m records from place n on as the tenant's: a book has fewer than 4,096.
pub fn rename(names: &mut [u16], n: usize, m: usize)
    requires { Renaming names.old n m }
    ensures { Renamed names.old n m names.new }
{
    for i in n..n + m {
        names[i] += 4096;
    }
}
