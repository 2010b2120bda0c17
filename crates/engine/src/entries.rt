// The entries of a system in one flat run of numbers: a, b, c of floor x, of floor y, and of each rule. One entry is read at a time.
ghost use Rattle.std.specs.Prelude.{◌≡◌};
ghost use Rattle.engine.specs.Entries.{entry as entry_of};
ghost use Rattle.engine.specs.Sizes.{Room};

use lp::Constraint;

pub fn entry(run: &[i64], k: usize) -> Constraint
    requires { Room run.now k }
    ensures { result ≡ entry_of run.now k }
{
    let at = 3 * k;
    Constraint {
        a: run[at],
        b: run[at + 1],
        c: run[at + 2],
    }
}
