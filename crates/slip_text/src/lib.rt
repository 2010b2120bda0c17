// The text of a slip on a line, part by part: what the slip program prints but for its line feed.

#![tactic(auto)]

ghost use Rattle.lp.specs.declared.Outcome.TheVariants as outcome;
ghost use Rattle.text.specs.Line.{RoomIn, Added, Adds};
ghost use Rattle.slip_text.specs.Text.{code_text, slot_text, entries_text, fields_of, slip_text};

use lp::{Outcome, Point, Ray};
use numerals::append_integer;
use pairs::{append_direction, append_pair};
use slip::{Slip, Weights};
use text::{Line, append_word};

// An entry: a floor's letter or a record's index.
fn append_code(code: i64, line: &mut Line)
    requires { RoomIn line.old 21 }
    ensures { Added line.old (code_text code) 21 line.new }
{
    if code <= 0 {
        append_word(b" X", line)
    } else if code <= 1 {
        append_word(b" Y", line)
    } else {
        append_integer(code - 1, line)
    }
}

// An entry and its weight, if it counts.
fn append_slot(counts: bool, code: i64, weight: i64, line: &mut Line)
    requires { RoomIn line.old 42 }
    ensures { Added line.old (slot_text counts code weight) 42 line.new }
{
    if counts {
        append_code(code, line);
        append_integer(weight, line);
    }
}

// The number of entries, then each with its weight.
fn append_entries(w: Weights, line: &mut Line)
    requires { RoomIn line.old 147 }
    ensures { Added line.old (entries_text w) 147 line.new }
{
    let one = 0 < w.count;
    let two = one & (1 < w.count);
    let three = two & (2 < w.count);
    append_integer(w.count, line);
    append_slot(one, w.first, w.first_weight, line);
    append_slot(two, w.second, w.second_weight, line);
    append_slot(three, w.third, w.third_weight, line);
}

fn append_best(v: Point, w: Weights, line: &mut Line)
    requires { RoomIn line.old 235 }
    ensures { Added line.old (fields_of (outcome.Optimal v) w) 235 line.new }
{
    append_word(b"best", line);
    append_pair(v, line);
    append_integer(w.scale, line);
    append_entries(w, line);
}

fn append_unlimited(v: Point, d: Ray, w: Weights, line: &mut Line)
    requires { RoomIn line.old 114 }
    ensures { Added line.old (fields_of (outcome.Unbounded v d) w) 114 line.new }
{
    append_word(b"unlimited", line);
    append_pair(v, line);
    append_direction(d, line);
}

fn append_impossible(w: Weights, line: &mut Line)
    requires { RoomIn line.old 157 }
    ensures { Added line.old (fields_of outcome.Infeasible w) 157 line.new }
{
    append_word(b"impossible", line);
    append_entries(w, line);
}

// The text of a slip, on a line that has 235 bytes left; one with fewer is left as it is.
pub fn append_slip(s: Slip, line: &mut Line)
    ensures { Adds line.old (slip_text s) 235 line.new }
{
    if line.lacks_room(235) {
        return;
    }
    let w = s.weights;
    match s.outcome {
        Outcome::Infeasible => append_impossible(w, line),
        Outcome::Unbounded(v, d) => append_unlimited(v, d, w, line),
        Outcome::Optimal(v) => append_best(v, w, line),
    }
}
