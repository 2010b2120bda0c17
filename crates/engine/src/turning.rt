// Turning the ring within its run: edge after edge the first is put behind the last, or the last before the first. The shorter way to a
// place is taken if the run has room for it, and else the other; a run twice as long as the ring always has room for one of them.
ghost use Rattle.engine.specs.Rings.{Forwards, Backwards, TurningTo, Faces, Turns};

use boundary::Arc;

// The first edge behind the last, until edge k is the last.
fn forwards(ring: &mut [u16], arc: Arc, k: usize) -> usize
    requires { Forwards ring.old arc.lo arc.n k }
    ensures { Faces ring.old arc.lo arc.n k result ring.new }
{
    let end = arc.lo + k + 1;
    for at in arc.lo..end {
        let i = ring[at];
        ring[at + arc.n] = i;
    }
    end
}

// The last edge before the first, until edge k is the last. The place goes down and is what is handed back: a range turned round would be
// no plainer.
fn backwards(ring: &mut [u16], arc: Arc, k: usize) -> usize
    requires { Backwards ring.old arc.lo arc.n k }
    ensures { Faces ring.old arc.lo arc.n k result ring.new }
{
    let end = arc.lo + k + 1 - arc.n;
    let mut at = arc.lo;
    while end < at {
        let i = ring[at + arc.n - 1];
        at -= 1;
        ring[at] = i;
    }
    at
}

// Turns the ring to begin behind its edge k, and says where it stands then, if the run has room: not at the run's start, so that an edge
// can be put before it.
pub fn turn_to(ring: &mut [u16], arc: Arc, k: usize) -> Option<usize>
    requires { TurningTo ring.old arc.lo arc.n k }
    ensures { Turns ring.old arc.lo arc.n k result ring.new }
{
    let up = k + 1;
    let down = arc.n - up;
    let spare = ring.len() - arc.lo - arc.n;
    if down < arc.lo {
        if (down <= up) | (spare < up) {
            return Some(backwards(&mut *ring, arc, k));
        }
    }
    if up <= spare {
        return Some(forwards(&mut *ring, arc, k));
    }
    None
}
