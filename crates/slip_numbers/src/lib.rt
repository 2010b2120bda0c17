// A slip as a run of 14 numbers, for programs in other languages: both ways, and checked as it is handed over.

#![tactic(auto)]

ghost use Rattle.std.specs.Prelude.{◌≡◌};
ghost use Rattle.records.specs.Layout.{v2};
ghost use Rattle.book.specs.Reading.{read_of};
ghost use Rattle.slip.specs.Facts.{verdict_of};
ghost use Rattle.slip.specs.Numbers.{outcome_number};
ghost use Rattle.slip_numbers.specs.Form.{pair_in, ray_in, weights_in, slip_in, slip_of, out_of_range};
ghost use Rattle.slip_numbers.specs.Form.{pair_of, ray_of, numbers_of, Laid, Fourteen};

use lp::{Outcome, Point, Ray};
use slip::{Slip, Verdict, Weights};

fn pair_in(n: &[i64]) -> Point
    requires { Fourteen n.now }
    ensures { result ≡ pair_in n.now }
{
    Point {
        x: n[2],
        y: n[3],
        d: n[4],
    }
}

fn ray_in(n: &[i64]) -> Ray
    requires { Fourteen n.now }
    ensures { result ≡ ray_in n.now }
{
    Ray { dx: n[5], dy: n[6] }
}

fn weights_in(n: &[i64]) -> Weights
    requires { Fourteen n.now }
    ensures { result ≡ weights_in n.now }
{
    Weights {
        scale: n[7],
        count: n[1],
        first: n[8],
        first_weight: n[9],
        second: n[10],
        second_weight: n[11],
        third: n[12],
        third_weight: n[13],
    }
}

// The slip of 14 numbers of which the first is an outcome's.
fn slip_in(n: &[i64]) -> Option<Slip>
    ensures { result ≡ slip_in n.now }
{
    if n.len() != 14 {
        return None;
    }
    let outcome = match n[0] {
        1 => Outcome::Optimal(pair_in(n)),
        2 => Outcome::Unbounded(pair_in(n), ray_in(n)),
        3 => Outcome::Infeasible,
        _ => return None,
    };
    Some(Slip {
        outcome,
        weights: weights_in(n),
    })
}

fn out_of_range() -> Slip
    ensures { result ≡ out_of_range }
{
    Slip {
        outcome: Outcome::Infeasible,
        weights: Weights::nothing(0),
    }
}

// The slip that a run of numbers stands for.
pub fn slip_from(numbers: &[i64]) -> Slip
    ensures { result ≡ slip_of numbers.now }
{
    match slip_in(numbers) {
        Some(slip) => slip,
        None => out_of_range(),
    }
}

// What the checker says of the slip that a run of numbers stands for.
pub fn check_numbers(book: &[u8], numbers: &[i64]) -> Verdict
    ensures { result ≡ verdict_of (read_of v2 book.now) (slip_of numbers.now) }
{
    checking::check(book, slip_from(numbers))
}

// Each outcome has its number.
fn number_of(o: Outcome) -> i64
    ensures { result ≡ outcome_number o }
{
    match o {
        Outcome::Optimal(_) => 1,
        Outcome::Unbounded(_, _) => 2,
        Outcome::Infeasible => 3,
    }
}

fn pair_of(o: Outcome) -> Point
    ensures { result ≡ pair_of o }
{
    match o {
        Outcome::Optimal(v) | Outcome::Unbounded(v, _) => v,
        Outcome::Infeasible => Point { x: 0, y: 0, d: 0 },
    }
}

fn ray_of(o: Outcome) -> Ray
    ensures { result ≡ ray_of o }
{
    match o {
        Outcome::Unbounded(_, d) => d,
        Outcome::Optimal(_) | Outcome::Infeasible => Ray { dx: 0, dy: 0 },
    }
}

// A slip's 14 numbers, each at its place.
fn numbers_of(s: Slip) -> [i64; 14]
    ensures { result ≡ numbers_of s }
{
    let v = pair_of(s.outcome);
    let d = ray_of(s.outcome);
    let w = s.weights;
    [
        number_of(s.outcome),
        w.count,
        v.x,
        v.y,
        v.d,
        d.dx,
        d.dy,
        w.scale,
        w.first,
        w.first_weight,
        w.second,
        w.second_weight,
        w.third,
        w.third_weight,
    ]
}

// A slip's 14 numbers at the start of a run, and how many they are. A run that is too short is left as it is, and 0 handed back.
pub fn put_slip(s: Slip, out: &mut [i64]) -> usize
    ensures { Laid s out.old result out.new }
{
    if out.len() < 14 {
        return 0;
    }
    out[..14].copy_from_slice(&numbers_of(s));
    14
}
