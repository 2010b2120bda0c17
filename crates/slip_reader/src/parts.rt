// The parts of a slip, each read from what the one before it left of the text. The outcome's word is known by its first letter.
ghost use Rattle.std.specs.Prelude.{◌≡◌};
ghost use Rattle.slip_reader.specs.Fields.{weights_in, best_in, unlimited_in, impossible_in, slip_in};
ghost use Rattle.slip_reader.specs.Asked.{FindsSlot, FindsPair};

use crate::fields::{code, integer};
use lp::{Outcome, Point, Ray};
use scanning::{behind, byte_at};
use slip::{Slip, Weights};

// An entry and its weight, if they count.
#[tactic(auto, unfolding(crate::specs::Fields::slot_code, crate::specs::Fields::slot_weight, crate::specs::Fields::past_slot))]
fn slot(counts: bool, text: &[u8]) -> (i64, i64, &[u8])
    ensures { FindsSlot counts text.now result.0 result.1 result.2.now }
{
    if counts {
        let (code, text) = code(text);
        let (weight, text) = integer(text);
        (code, weight, text)
    } else {
        (0, 0, text)
    }
}

// The number of entries after the scale, and each with its weight.
#[tactic(auto, unfolding(crate::specs::Fields::weights_in))]
fn weights(scale: i64, text: &[u8]) -> Weights
    ensures { result ≡ weights_in scale text.now }
{
    let (count, text) = integer(text);
    let one = 0 < count;
    let two = one & (1 < count);
    let three = two & (2 < count);
    let (first, first_weight, text) = slot(one, text);
    let (second, second_weight, text) = slot(two, text);
    let (third, third_weight, _) = slot(three, text);
    Weights {
        scale,
        count,
        first,
        first_weight,
        second,
        second_weight,
        third,
        third_weight,
    }
}

// X, Y and D.
#[tactic(auto, unfolding(crate::specs::Fields::point_in, crate::specs::Fields::past_pair))]
fn pair(text: &[u8]) -> (Point, &[u8])
    ensures { FindsPair text.now result.0 result.1.now }
{
    let (x, text) = integer(text);
    let (y, text) = integer(text);
    let (d, text) = integer(text);
    (Point { x, y, d }, text)
}

fn best(text: &[u8]) -> Slip
    ensures { result ≡ best_in text.now }
{
    let (point, text) = pair(text);
    let (scale, text) = integer(text);
    Slip {
        outcome: Outcome::Optimal(point),
        weights: weights(scale, text),
    }
}

// An unlimited plan names no entry.
fn unlimited(text: &[u8]) -> Slip
    ensures { result ≡ unlimited_in text.now }
{
    let (point, text) = pair(text);
    let (dx, text) = integer(text);
    let (dy, _) = integer(text);
    Slip {
        outcome: Outcome::Unbounded(point, Ray { dx, dy }),
        weights: Weights::nothing(0),
    }
}

fn impossible(text: &[u8]) -> Slip
    ensures { result ≡ impossible_in text.now }
{
    Slip {
        outcome: Outcome::Infeasible,
        weights: weights(0, text),
    }
}

// The slip of any bytes.
pub fn parsed(text: &[u8]) -> Slip
    ensures { result ≡ slip_in text.now }
{
    match byte_at(text) {
        b'b' => best(behind(text, 4)),
        b'u' => unlimited(behind(text, 9)),
        _ => impossible(behind(text, 10)),
    }
}
