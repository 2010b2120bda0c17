// The weights of a slip, from what the pass holds or from the plan's witness.
ghost use Rattle.std.specs.Prelude.{◌≡◌};
ghost use Rattle.slips.specs.Weights.{one_weight, two_weights, weights_of, used_of, conflict_weights};
ghost use Rattle.slips.specs.Weights.{SmallCodes, Enclosing, Along, Weighing};

use crate::pass::{Held, Side};
use exact::lines::Crossing;
use exact::within::{det, dot};
use lp::{Certificate, Constraint};
use slip::Weights;
use witness::is_zero;

// One entry, of the objective's direction.
fn one_entry(f: Constraint, s: Side) -> Weights
    requires { Along f s }
    ensures { result ≡ one_weight f s }
{
    let n = s.rule;
    Weights {
        scale: dot(Crossing { r: n, s: n }),
        count: 1,
        first: s.code,
        first_weight: dot(Crossing { r: f, s: n }),
        second: 0,
        second_weight: 0,
        third: 0,
        third_weight: 0,
    }
}

// Two that enclose it, codes rising.
fn two_entries(f: Constraint, r: Side, l: Side) -> Weights
    requires { Enclosing f r l }
    ensures { result ≡ two_weights f r l }
{
    let scale = det(Crossing {
        r: r.rule,
        s: l.rule,
    });
    let of_right = det(Crossing { r: f, s: l.rule });
    let of_left = det(Crossing { r: r.rule, s: f });
    if r.code < l.code {
        Weights {
            scale,
            count: 2,
            first: r.code,
            first_weight: of_right,
            second: l.code,
            second_weight: of_left,
            third: 0,
            third_weight: 0,
        }
    } else {
        Weights {
            scale,
            count: 2,
            first: l.code,
            first_weight: of_left,
            second: r.code,
            second_weight: of_right,
            third: 0,
            third_weight: 0,
        }
    }
}

pub fn optimum_weights(f: Constraint, h: Held) -> Weights
    requires { Weighing f h }
    ensures { result ≡ weights_of f h }
{
    let level = h.level;
    let right = h.right;
    let left = h.left;
    if 0 < dot(Crossing {
        r: f,
        s: level.rule,
    }) {
        return one_entry(f, level);
    }
    if 0 < det(Crossing {
        r: right.rule,
        s: left.rule,
    }) {
        return two_entries(f, right, left);
    }
    // An objective of (0, 0) needs no entry.
    Weights::nothing(1)
}

// How many entries of a witness are in use.
fn used(k: Certificate) -> i64
    ensures { result ≡ used_of k }
{
    if is_zero(k.second_weight) {
        return 1;
    }
    if is_zero(k.third_weight) {
        return 2;
    }
    3
}

pub fn conflict_weights(k: Certificate) -> Weights
    requires { SmallCodes k }
    ensures { result ≡ conflict_weights k }
{
    Weights {
        scale: 0,
        count: used(k),
        first: k.first as i64,
        first_weight: k.first_weight,
        second: k.second as i64,
        second_weight: k.second_weight,
        third: k.third as i64,
        third_weight: k.third_weight,
    }
}
