// The edges of the region's boundary: a run of indices names them among the entries of a system. Index 0 names the line at infinity, and
// index k + 1 entry k. The two runs are handed in side by side: an insertion changes the one and reads the other, so that a struct of both
// would be put together anew for each look at an edge.
ghost use Rattle.std.specs.Prelude.{◌≡◌};
ghost use Rattle.boundary.specs.Ring.{keeps_at};
ghost use Rattle.engine.specs.Row.{edge as edge_of, is_between};
ghost use Rattle.engine.specs.Rings.{At, Pair, Place};

use crate::entries::entry;
use exact::lines::{Corner, Seen};
use exact::within::{keeps, keeps_at, reaches};
use lp::{Constraint, Point};

// The edge at place k of the ring's run.
pub fn edge(run: &[i64], ring: &[u16], k: usize) -> Constraint
    requires { At run.now ring.now k }
    ensures { result ≡ edge_of run.now ring.now k }
{
    let i = ring[k] as usize;
    if i < 1 {
        return Constraint { a: 0, b: 0, c: 1 };
    }
    entry(run, i - 1)
}

// Whether the corner of the edges at places i and j keeps h.
pub fn corner_keeps(run: &[i64], ring: &[u16], h: Constraint, i: usize, j: usize) -> bool
    requires { Pair run.now ring.now h i j }
    ensures { result ≡ keeps_at h (edge_of run.now ring.now i)
        (edge_of run.now ring.now j) }
{
    let p = edge(run, ring, i);
    let q = edge(run, ring, j);
    keeps_at(Corner { h, p, q })
}

// Whether a constraint belongs between the edges at places i and j. The turns from the one to it and from it to the other are asked of the
// point w in which its line meets that of the size, which is worked out once for the constraint and not for each edge.
pub fn is_between(run: &[i64], ring: &[u16], w: Point, i: usize, j: usize) -> bool
    requires { Place run.now ring.now w i j }
    ensures { result ≡ is_between w (edge_of run.now ring.now i)
        (edge_of run.now ring.now j) }
{
    let p = edge(run, ring, i);
    if keeps(Seen { r: p, v: w }) {
        let q = edge(run, ring, j);
        reaches(Seen { r: q, v: w })
    } else {
        false
    }
}
