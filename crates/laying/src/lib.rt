// The corners of the region of rules that stand in a run of numbers. The rules enter the region's boundary in an order that is chosen for
// speed alone; a batch and a list of corners both take them from here. It takes any numbers and any runs.

#![tactic(auto)]

mod order;
mod room;

ghost use Rattle.laying.specs.Laying.{Lays};

use lp::Floors;
use order::{put_angles, put_order};
use room::is_ready;

// Lists the corners of the rules that stand in the run from its seventh number on, as many as the order is long: see `region::corners`,
// which says what is listed and what is outside. The order is put in: by the angles of the rules' normals.
pub fn lay(
    floors: Floors,
    run: &mut [i64],
    order: &mut [u16],
    ring: &mut [u16],
    corners: &mut [i64],
) -> Option<usize>
    ensures { Lays floors run.old order.old ring.old corners.old
        result run.new order.new ring.new corners.new }
{
    let n = order.len();
    if !is_ready(floors, n, ring.len(), corners.len()) {
        return None;
    }
    put_angles(floors, &*run, &mut *order);
    region::corners(floors, run, n, &*order, ring, corners)
}

// The same, where few corners are likely: a sample of the rules is asked first, and if few of it are edges, the order is that of the run.
pub fn lay_sampled(
    floors: Floors,
    run: &mut [i64],
    order: &mut [u16],
    ring: &mut [u16],
    corners: &mut [i64],
) -> Option<usize>
    ensures { Lays floors run.old order.old ring.old corners.old
        result run.new order.new ring.new corners.new }
{
    let n = order.len();
    if !is_ready(floors, n, ring.len(), corners.len()) {
        return None;
    }
    put_order(floors, &mut *run, &mut *order);
    region::corners(floors, run, n, &*order, ring, corners)
}
