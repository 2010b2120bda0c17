// The boundary of a system's region: a ring of edges, and its corners. A rule enters the ring by walking outwards from its place, so that
// rules in the order of their angles take a time near to their number; in any order the corners are the same.

#![tactic(auto)]

mod edges;
mod frame;
mod grow;
mod insert;
mod list;
mod range;
mod turning;

ghost use Rattle.region.specs.Listing.{Lists};

use lp::Floors;

// Lists the corners of a region, in lowest terms, three numbers each, in the order of its boundary; a corner may be listed more than once.
// The n rules stand in a run of numbers from its seventh on (a, b, c each), with room for one more entry after them: the floors are laid
// out before them, and the line at infinity after them. `order` names the rules that enter, by their entries: rule i is entry i + 2. In the
// order of their angles they enter quickest. `ring` is the boundary's own; twice as long as there are rules, it is seldom laid out again.
// The answer is how many corners are listed, or None where some number is out of its range, a run has no room, or the order names what is
// no rule.
pub fn corners(
    floors: Floors,
    run: &mut [i64],
    n: usize,
    order: &[u16],
    ring: &mut [u16],
    out: &mut [i64],
) -> Option<usize>
    ensures { Lists floors run.old n order.now ring.old out.old
        result run.new ring.new out.new }
{
    if !range::is_taken(floors, &*run, n, order, ring.len(), out.len()) {
        return None;
    }
    frame::frame(floors, &mut *run, n);
    let Some(arc) = grow::grow(floors, &*run, n + 3, order, &mut *ring) else {
        return Some(0);
    };
    Some(list::list(&*run, &*ring, arc, out))
}
