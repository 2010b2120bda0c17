// Whether the runs have room and the floors are within their range, asked before the order is made.
ghost use Rattle.std.specs.Prelude.{◌≡◌};
ghost use Rattle.laying.specs.Laying.{ready};

use amounts::range::floors_in_range;
use lp::Floors;

// Runs of these lengths have room for a ring of n rules and for its corners, and the floors are within their range.
pub fn is_ready(floors: Floors, n: usize, ring: usize, corners: usize) -> bool
    ensures { result ≡ ready floors n ring corners }
{
    n <= 65533 && n + 4 <= ring && 3 * (n + 3) <= corners && floors_in_range(floors)
}
