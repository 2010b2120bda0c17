// What the codes of a slip name: a floor, a rule of the chain, or nothing.
ghost use Rattle.std.specs.Prelude.{◌≡◌};
ghost use Rattle.lp.specs.Program.{floor_x, floor_y};
ghost use Rattle.lp.specs.Range.{SmallFloors};
ghost use Rattle.slip.specs.Facts.{entry_of};
ghost use Rattle.slip.specs.Slots.{blank_of, weighed_of, slot_of, slots_of, apart_of, sound_of, total_of, SmallSlots};
ghost use Rattle.slip.specs.Runs.{entries, indices, Naming};

use crate::entries::rule_in;
use crate::sums::{added, same};
use ints::magnitude;
use lp::{Constraint, Floors};
use slip::named::{Slot, Slots};
use slip::{Weights, within};

pub fn floor_x(floors: Floors) -> Constraint
    requires { SmallFloors floors }
    ensures { result ≡ floor_x floors }
{
    Constraint {
        a: -1,
        b: 0,
        c: -floors.lx,
    }
}

pub fn floor_y(floors: Floors) -> Constraint
    requires { SmallFloors floors }
    ensures { result ≡ floor_y floors }
{
    Constraint {
        a: 0,
        b: -1,
        c: -floors.ly,
    }
}

// The entry that a code names, of a chain of n rules.
pub fn entry_named(
    floors: Floors,
    records: &[u16],
    rules: &[i64],
    n: usize,
    code: i64,
) -> Option<Constraint>
    requires { Naming floors records.now rules.now n }
    ensures { result ≡ entry_of floors (indices records.now 0 n) (entries rules.now 0 n) code }
{
    if code < 0 {
        return None;
    }
    let number = magnitude(code);
    if number == 0 {
        return Some(floor_x(floors));
    }
    if number == 1 {
        return Some(floor_y(floors));
    }
    rule_in(records, rules, n, number - 1)
}

// A slot that adds nothing.
fn blank(sound: bool) -> Slot
    ensures { result ≡ blank_of sound }
{
    Slot {
        sound,
        rule: Constraint { a: 0, b: 0, c: 0 },
        weight: 0,
    }
}

// What an entry and its weight come to, where they count.
fn weighed(entry: Option<Constraint>, weight: i64) -> Slot
    ensures { result ≡ weighed_of entry weight }
{
    match entry {
        Some(rule) if within(1, weight, 2147352578) => Slot {
            sound: true,
            rule,
            weight,
        },
        _ => blank(false),
    }
}

// One slot. What does not count is not looked up.
fn slot_at(
    floors: Floors,
    records: &[u16],
    rules: &[i64],
    n: usize,
    counts: bool,
    code: i64,
    weight: i64,
) -> Slot
    requires { Naming floors records.now rules.now n }
    ensures { result ≡ slot_of counts
        (entry_of floors (indices records.now 0 n) (entries rules.now 0 n) code) weight }
{
    if counts {
        weighed(entry_named(floors, records, rules, n, code), weight)
    } else {
        blank(true)
    }
}

// All three.
pub fn looked_up(floors: Floors, records: &[u16], rules: &[i64], n: usize, w: Weights) -> Slots
    requires { Naming floors records.now rules.now n }
    ensures { result ≡ slots_of floors (indices records.now 0 n) (entries rules.now 0 n) w }
{
    let one = 0 < w.count;
    let two = one & (1 < w.count);
    let three = two & (2 < w.count);
    Slots {
        first: slot_at(floors, records, rules, n, one, w.first, w.first_weight),
        second: slot_at(floors, records, rules, n, two, w.second, w.second_weight),
        third: slot_at(floors, records, rules, n, three, w.third, w.third_weight),
    }
}

// No entry that counts is named twice.
fn apart(w: Weights) -> bool
    ensures { result ≡ apart_of w }
{
    let one = 0 < w.count;
    let two = one & (1 < w.count);
    let three = two & (2 < w.count);
    let first = two & same(w.first, w.second);
    let second = three & same(w.first, w.third);
    let third = three & same(w.second, w.third);
    !(first | second | third)
}

// Every entry that counts is in range, and named once.
pub fn sound(s: Slots, w: Weights) -> bool
    ensures { result ≡ sound_of s w }
{
    s.first.sound & s.second.sound & s.third.sound & apart(w)
}

// The weighted sums of a, b and c.
pub fn total(s: Slots) -> Constraint
    requires { SmallSlots s }
    ensures { result ≡ total_of s }
{
    let nothing = Constraint { a: 0, b: 0, c: 0 };
    let last = added(s.third.weight, s.third.rule, nothing);
    let rest = added(s.second.weight, s.second.rule, last);
    added(s.first.weight, s.first.rule, rest)
}
