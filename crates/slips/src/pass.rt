// The pass over the entries that are tight at a best pair. See specs/Pass.antt for what it holds.
ghost use Rattle.std.specs.Prelude.{◌≡◌};
ghost use Rattle.lp.specs.Range.{SmallConstraint};
ghost use Rattle.slip.specs.Runs.{entry, Room as RuleRoom};
ghost use Rattle.slips.specs.Pass.{normal_of, nothing_held, placed_of, turned_of, floors_held, held_of};
ghost use Rattle.slips.specs.Runs.{side_at, entries, indices, Room, Placing, Turning, Flooring, Passing};

use exact::lines::{Crossing, Seen};
use exact::within::{det, dot, tight};
use lp::{Constraint, Floors, Functional, Point};

// An entry, by its code and its rule.
#[derive(Clone, Copy)]
pub struct Side {
    pub code: i64,
    pub rule: Constraint,
}

#[derive(Clone, Copy)]
pub struct Held {
    pub left: Side,
    pub right: Side,
    pub level: Side,
}

fn nothing_held(f: Constraint) -> Held
    requires { SmallConstraint f }
    ensures { result ≡ nothing_held f }
{
    let rule = Constraint {
        a: -f.a,
        b: -f.b,
        c: 0,
    };
    let none = Constraint { a: 0, b: 0, c: 0 };
    Held {
        left: Side { code: 0, rule },
        right: Side { code: 0, rule },
        level: Side {
            code: 0,
            rule: none,
        },
    }
}

// A tight entry, by the side of f on which its normal lies.
fn placed(f: Constraint, s: Side, h: Held) -> Held
    requires { Placing f s h }
    ensures { result ≡ placed_of f s h }
{
    let n = s.rule;
    let left = h.left;
    let right = h.right;
    let level = h.level;
    if 0 < det(Crossing { r: f, s: n }) {
        if 0 < det(Crossing { r: n, s: left.rule }) {
            return Held {
                left: s,
                right,
                level,
            };
        }
        return h;
    }
    if det(Crossing { r: f, s: n }) < 0 {
        if 0 < det(Crossing {
            r: right.rule,
            s: n,
        }) {
            return Held {
                left,
                right: s,
                level,
            };
        }
        return h;
    }
    if 0 < dot(Crossing { r: f, s: n }) {
        return Held {
            left,
            right,
            level: s,
        };
    }
    h
}

fn turned(f: Constraint, v: Point, s: Side, h: Held) -> Held
    requires { Turning f v s h }
    ensures { result ≡ turned_of f v s h }
{
    if tight(Seen { r: s.rule, v }) {
        placed(f, s, h)
    } else {
        h
    }
}

// The floors come first.
fn floors_held(f: Constraint, v: Point, floors: Floors) -> Held
    requires { Flooring f v floors }
    ensures { result ≡ floors_held f v floors }
{
    let x = Constraint {
        a: -1,
        b: 0,
        c: -floors.lx,
    };
    let y = Constraint {
        a: 0,
        b: -1,
        c: -floors.ly,
    };
    let first = turned(f, v, Side { code: 0, rule: x }, nothing_held(f));
    turned(f, v, Side { code: 1, rule: y }, first)
}

fn rule_at(rules: &[i64], i: usize) -> Constraint
    requires { RuleRoom rules.now i }
    ensures { result ≡ entry rules.now i }
{
    let at = 3 * i;
    Constraint {
        a: rules[at],
        b: rules[at + 1],
        c: rules[at + 2],
    }
}

// The entry at a place of the runs.
fn side_at(records: &[u16], rules: &[i64], i: usize) -> Side
    requires { Room records.now rules.now i }
    ensures { result ≡ side_at records.now rules.now i }
{
    Side {
        code: records[i] as i64 + 1,
        rule: rule_at(rules, i),
    }
}

// What the pass over a chain of n rules holds in the end.
pub fn passed(
    f: Functional,
    v: Point,
    floors: Floors,
    records: &[u16],
    rules: &[i64],
    n: usize,
) -> Held
    requires { Passing f v floors records.now rules.now n }
    ensures { result ≡ held_of f v floors (indices records.now 0 n) (entries rules.now 0 n) }
{
    let normal = Constraint {
        a: f.p,
        b: f.q,
        c: 0,
    };
    let mut held = floors_held(normal, v, floors);
    for i in 0..n {
        held = turned(normal, v, side_at(records, rules, i), held);
    }
    held
}
