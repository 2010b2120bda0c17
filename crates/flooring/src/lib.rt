// The floors as the first two entries of a run of numbers (a, b, c each), as the engine walks it: floor x is −x ≤ −lx, and floor y is
// −y ≤ −ly. The function is total, so that it stands below the engine and is proved apart from it.

#![tactic(auto)]

ghost use Rattle.flooring.specs.Floors.{Lays};

use amounts::range::floors_in_range;
use lp::Floors;

// Lays them, if the run has room for them and they are within their range, and says whether.
pub fn lay_floors(floors: Floors, run: &mut [i64]) -> bool
    ensures { Lays floors run.old result run.new }
{
    if run.len() < 6 {
        return false;
    }
    if floors_in_range(floors) {
        run[0] = -1;
        run[1] = 0;
        run[2] = -floors.lx;
        run[3] = 0;
        run[4] = -1;
        run[5] = -floors.ly;
        true
    } else {
        false
    }
}
