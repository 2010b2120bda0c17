// Whether numbers are within their ranges, asked before anything is computed of them. The tests of one rule are joined without a branch.
ghost use Rattle.std.specs.Prelude.{◌≡◌};
ghost use Rattle.amounts.specs.Tests.{up_to, rule_in_range, floors_in_range};

use lp::{Constraint, Floors};

// From -n to n. The compiler makes one comparison of the two, and works out no magnitude.
pub fn up_to(n: u32, z: i64) -> bool
    ensures { result ≡ up_to n z }
{
    let most = n as i64;
    (-most <= z) & (z <= most)
}

pub fn rule_in_range(r: Constraint) -> bool
    ensures { result ≡ rule_in_range r }
{
    up_to(32767, r.a) & up_to(32767, r.b) & up_to(1000000000, r.c)
}

pub fn floors_in_range(f: Floors) -> bool
    ensures { result ≡ floors_in_range f }
{
    up_to(32768, f.lx) & up_to(32768, f.ly)
}
