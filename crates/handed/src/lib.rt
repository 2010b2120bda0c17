// What is handed to programs in other languages, as numbers: a count or a refusal as one number, what the checker of slips says as one
// number, and a start pair in a lent run.

#![tactic(auto)]

ghost use Rattle.std.specs.Prelude.{◌≡◌};
ghost use Rattle.handed.specs.Told.{told_of, verdict_told};
ghost use Rattle.handed.specs.Start.{put_point, PointRoom, StartPut};

use answers::Refusal;
use lp::Point;
use planner::StartView;
use slip::Verdict;

// What is handed back: of an accepted book a count, and of a refused one its number and record as one number.
pub fn told(answer: Result<usize, Refusal>) -> usize
    ensures { result ≡ told_of answer }
{
    match answer {
        Ok(count) => count,
        Err(refusal) => 65536 * refusal.number as usize + refusal.at as usize,
    }
}

// What the checker says, as one number: 1 is yes, 0 is no, and a refusal is 65,536 times its number plus its record. A refusal with number
// 0, which no cause has, is 0 whatever record it names.
pub fn verdict_told(verdict: Verdict) -> usize
    ensures { result ≡ verdict_told verdict }
{
    match verdict {
        Verdict::Refused(refusal) if refusal.number == 0 => 0,
        Verdict::Refused(refusal) => told(Err(refusal)),
        Verdict::Yes => 1,
        Verdict::No => 0,
    }
}

// X, Y and D, at the start of a run of numbers.
fn put_point(out: &mut [i64], v: Point)
    requires { PointRoom out.old }
    ensures { out.new ≡ put_point out.old v }
{
    let x = v.x;
    let y = v.y;
    let d = v.d;
    out[0] = x;
    out[1] = y;
    out[2] = d;
}

// The start pair of an accepted book at the start of a run of at least three numbers, zeros where no pair is allowed, and a count. A
// refused book leaves the run as it is, and so does a shorter run; of a refused book 65,536 times its number plus its record is handed
// back.
pub fn put_start(view: Result<StartView, Refusal>, out: &mut [i64]) -> usize
    ensures { StartPut view out.old out.new result }
{
    match view {
        Err(refusal) => told(Err(refusal)),
        Ok(view) => {
            if out.len() >= 3 {
                put_point(out, view.start.unwrap_or(Point { x: 0, y: 0, d: 0 }));
            }
            view.restarts
        }
    }
}
