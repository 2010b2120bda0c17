// The rays along which no rule is left: all between two, or none. They are worked out once for all objectives.
ghost use Rattle.std.specs.Prelude.{◌≡◌};
ghost use Rattle.engine.specs.Entries.{entry as entry_of, entries};
ghost use Rattle.engine.specs.Sizes.{Room};
ghost use Rattle.batch_theory.specs.Rays.{rays_of};
ghost use Rattle.offering.specs.Asked.{Ruled};

use exact::cone::Narrowing;
use exact::within::narrow;
use lp::{Constraint, Ray};

// The rule at an index.
fn entry(run: &[i64], k: usize) -> Constraint
    requires { Room run.now k }
    ensures { result ≡ entry_of run.now k }
{
    let at = 3 * k;
    Constraint {
        a: run[at],
        b: run[at + 1],
        c: run[at + 2],
    }
}

// The rays of n rules, which stand after the floors: all of the quadrant at first.
pub fn rays(run: &[i64], n: usize) -> Option<(Ray, Ray)>
    requires { Ruled n run.now }
    ensures { result ≡ rays_of (entries run.now 2 n) }
{
    let end = n + 2;
    let mut cone = Some((Ray { dx: 1, dy: 0 }, Ray { dx: 0, dy: 1 }));
    for i in 2..end {
        let h = entry(run, i);
        cone = narrow(Narrowing { h, cone });
    }
    cone
}
