// Turning the ring: its first edge is put behind the last, so that the ring walks up its run. Where the run ends, the ring is moved down
// to the start first. A run twice as long as the ring makes that rare.
ghost use Rattle.region.specs.Asked.{Sliding, Slides, Turning, Spared, Turned};

use boundary::Arc;

// Moves the ring to the start of its run.
fn slide(ring: &mut [u16], arc: Arc)
    requires { Sliding ring.old arc.lo arc.n }
    ensures { Slides ring.old arc.lo arc.n ring.new }
{
    for i in 0..arc.n {
        let k = ring[arc.lo + i];
        ring[i] = k;
    }
}

// Makes room for one more index behind the ring, and says where it stands then.
fn spare(ring: &mut [u16], arc: Arc) -> usize
    requires { Turning ring.old arc.lo arc.n }
    ensures { Spared ring.old arc.lo arc.n result ring.new }
{
    if arc.lo + arc.n < ring.len() {
        return arc.lo;
    }
    slide(&mut *ring, arc);
    0
}

// One turn, and where the ring stands then: not at the run's start, so that an edge can be put before it.
pub fn turn(ring: &mut [u16], arc: Arc) -> usize
    requires { Turning ring.old arc.lo arc.n }
    ensures { Turned ring.old arc.lo arc.n result ring.new }
{
    let at = spare(&mut *ring, arc);
    let k = ring[at];
    ring[at + arc.n] = k;
    at + 1
}
