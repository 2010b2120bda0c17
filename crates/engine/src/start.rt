// The start point, which says whether the system is feasible: when a constraint breaks it, it moves to the tightest point on that
// constraint's line, or there is none and three constraints say why.
ghost use Rattle.std.specs.Prelude.{◌≡◌, ◌&&◌};
ghost use Rattle.lp.specs.Certificate.{is_zero};
ghost use Rattle.model.specs.Step.{alone as alone_of, line_weight, conflict as conflict_of};
ghost use Rattle.model.specs.Step.{resettled as resettled_of, restart as restart_of};
ghost use Rattle.engine.specs.Entries.{entries as entries_of};
ghost use Rattle.engine.specs.Sizes.{Lines, Conflicting, Resettling, Restarting};
ghost use Rattle.engine.specs.Start.{kept_or_restarted};

use crate::order::tie_upward;
use crate::scan::{first_broken, tightest};
use exact::lines::{Crossing, Line};
use exact::within::{det, direction, facing};
use fraction::reduce;
use lp::{Certificate, Constraint, Point, Tie};
use model::Met;
use witness::is_zero;

// A rule with a = b = 0, which has no line.
pub fn is_level(h: Constraint) -> bool
    ensures { result ≡ is_zero h.a && is_zero h.b }
{
    is_zero(h.a) && is_zero(h.b)
}

// 0 is at most c, with c below 0: the rule at index n needs no other entry.
pub fn alone(n: usize) -> Certificate
    ensures { result ≡ alone_of n }
{
    Certificate {
        first: n,
        first_weight: 1,
        second: 0,
        second_weight: 0,
        third: 0,
        third_weight: 0,
    }
}

// The weight of the rule whose line is walked as it stands or turned round.
fn line_weight(side: bool, k: Constraint, m: Constraint) -> i64
    requires { Lines k m }
    ensures { result ≡ line_weight side k m }
{
    if side {
        det(Crossing { r: m, s: k })
    } else {
        det(Crossing { r: k, s: m })
    }
}

// h at index n, k at j, which meets its line first, and m at i, which that point breaks.
fn conflict(
    side: bool,
    n: usize,
    h: Constraint,
    j: usize,
    k: Constraint,
    i: usize,
    m: Constraint,
) -> Certificate
    requires { Conflicting h k m }
    ensures { result ≡ conflict_of side n h j k i m }
{
    let line = facing(side, Line { h });
    Certificate {
        first: n,
        first_weight: line_weight(side, k, m),
        second: j,
        second_weight: det(Crossing { r: line, s: m }),
        third: i,
        third_weight: det(Crossing { r: k, s: line }),
    }
}

// The tightest point on the line, if it keeps every entry.
pub fn resettled(
    entries: &[i64],
    side: bool,
    n: usize,
    h: Constraint,
    found: Option<Met>,
) -> Result<Point, Certificate>
    requires { Resettling entries.now n h found }
    ensures { result ≡ resettled_of (entries_of entries.now 0 n) side n h found }
{
    match found {
        None => Err(alone(n)),
        Some(met) => match first_broken(entries, n, met.point) {
            None => Ok(reduce(met.point)),
            Some((i, m)) => Err(conflict(side, n, h, met.index, met.entry, i, m)),
        },
    }
}

fn restart(tie: Tie, entries: &[i64], n: usize, h: Constraint) -> Result<Point, Certificate>
    requires { Restarting tie entries.now n h }
    ensures { result ≡ restart_of tie (entries_of entries.now 0 n) n h }
{
    if is_level(h) {
        return Err(alone(n));
    }
    let side = tie_upward(tie, direction(Line { h }));
    let found = tightest(entries, n, facing(side, Line { h }));
    resettled(entries, side, n, h, found)
}

// The start point stays where it keeps the new constraint; no entry is looked at then.
pub fn start(
    tie: Tie,
    entries: &[i64],
    n: usize,
    h: Constraint,
    s: Point,
    kept: bool,
) -> Result<Point, Certificate>
    requires { Restarting tie entries.now n h }
    ensures { result ≡ kept_or_restarted tie (entries_of entries.now 0 n) n h s kept }
{
    if kept {
        Ok(s)
    } else {
        restart(tie, entries, n, h)
    }
}
