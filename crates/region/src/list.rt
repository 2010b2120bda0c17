// The corners of a ring, into a run of numbers, three to a corner.
ghost use Rattle.std.specs.Prelude.{◌≡◌};
ghost use Rattle.region.specs.Listing.{put_point};
ghost use Rattle.region.specs.Asked.{PointRoom, Noting, Noted, Listing, CornersPut};

use crate::edges::edge;
use boundary::Arc;
use exact::lines::Crossing;
use exact::within::meet;
use fraction::reduce;
use lp::{Constraint, Point};

fn put_point(out: &mut [i64], k: usize, v: Point)
    requires { PointRoom out.old k }
    ensures { out.new ≡ put_point out.old k v }
{
    let at = 3 * k;
    let x = v.x;
    let y = v.y;
    let d = v.d;
    out[at] = x;
    out[at + 1] = y;
    out[at + 2] = d;
}

// The corner of p and q, if it is a point, is put at place k; the next free place is handed back.
fn note(p: Constraint, q: Constraint, out: &mut [i64], k: usize) -> usize
    requires { Noting out.old p q k }
    ensures { Noted out.old p q k result out.new }
{
    let v = meet(Crossing { r: p, s: q });
    if 0 < v.d {
        put_point(out, k, reduce(v));
        return k + 1;
    }
    k
}

// The corners of the ring in its order, and how many there are. The last is that of the last edge and the first.
pub fn list(run: &[i64], ring: &[u16], arc: Arc, out: &mut [i64]) -> usize
    requires { Listing run.now ring.now arc out.old }
    ensures { CornersPut run.now ring.now arc out.old result out.new }
{
    let mut k = 0;
    for i in 1..arc.n {
        let at = arc.lo + i;
        let p = edge(run, ring, at - 1);
        k = note(p, edge(run, ring, at), &mut *out, k);
    }
    let p = edge(run, ring, arc.lo + arc.n - 1);
    note(p, edge(run, ring, arc.lo), out, k)
}
