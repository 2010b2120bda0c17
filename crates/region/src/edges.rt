// The edges of a ring: a run of indices names them among the entries, which stand in a run of numbers, three to an entry.
ghost use Rattle.std.specs.Prelude.{◌≡◌};
ghost use Rattle.engine.specs.Sizes.{Room};
ghost use Rattle.engine.specs.Entries.{entry as entry_of};
ghost use Rattle.boundary.specs.Ring.{keeps_at, at_place};
ghost use Rattle.region.specs.Row.{edge as edge_of};
ghost use Rattle.region.specs.Asked.{At, Pair, Place};

use exact::lines::Corner;
use exact::within::keeps_at;
use lp::Constraint;

pub fn entry(run: &[i64], k: usize) -> Constraint
    requires { Room run.now k }
    ensures { result ≡ entry_of run.now k }
{
    let at = 3 * k;
    Constraint {
        a: run[at],
        b: run[at + 1],
        c: run[at + 2],
    }
}

// The edge at place k of the ring's run.
pub fn edge(run: &[i64], ring: &[u16], k: usize) -> Constraint
    requires { At run.now ring.now k }
    ensures { result ≡ edge_of run.now ring.now k }
{
    entry(run, ring[k] as usize)
}

// Whether the corner of the edges at places i and j keeps h.
pub fn corner_keeps(run: &[i64], ring: &[u16], h: Constraint, i: usize, j: usize) -> bool
    requires { Pair run.now ring.now h i j }
    ensures { result ≡ keeps_at h (edge_of run.now ring.now i)
        (edge_of run.now ring.now j) }
{
    let p = edge(run, ring, i);
    let q = edge(run, ring, j);
    keeps_at(Corner { h, p, q })
}

// Whether h belongs between the edges at places i and j.
pub fn at_place(
    run: &[i64],
    ring: &[u16],
    size: Constraint,
    h: Constraint,
    i: usize,
    j: usize,
) -> bool
    requires { Place run.now ring.now size h i j }
    ensures { result ≡ at_place size h (edge_of run.now ring.now i)
        (edge_of run.now ring.now j) }
{
    let k = edge(run, ring, i);
    if keeps_at(Corner {
        h: size,
        p: k,
        q: h,
    }) {
        let e = edge(run, ring, j);
        keeps_at(Corner {
            h: size,
            p: h,
            q: e,
        })
    } else {
        false
    }
}
