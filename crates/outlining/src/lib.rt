// Corners that were laid out as points in a run of numbers, made the list of request 110: in order, without repeats, as bytes. It takes
// any numbers and any runs.

#![tactic(auto)]

ghost use Rattle.std.specs.Prelude.{◌≤◌, length};
ghost use Rattle.outlining.specs.Finishing.{Finishes, Finished};

use answers::{Cause, Refusal};
use arranging::arrange;
use listing::list_points;
use outline::Unlisted;

// Writes the first points of the keys, as many as the run is long, if they fit; else it says 11, and how many they are.
fn finish(keys: &[i64], run: &mut [u16], out: &mut [u8]) -> Result<usize, Unlisted>
    requires { length run.old ≤ 4098 }
    ensures { Finished keys.now (length run.old) out.old result run.new out.new }
{
    let count = arrange(keys, &mut *run);
    if list_points(keys, &*run, count, out) {
        Ok(count)
    } else {
        let refusal = Refusal::of(Cause::Room, 0);
        Err(Unlisted { refusal, count })
    }
}

// Writes the first n points of the keys, each once and in order, if they fit; else it says 11, and how many they are. Their indices stand
// in the first n places of the run. More points than 4,098 or than the run has places are not put in order: 11, and no count.
pub fn list_corners(
    keys: &[i64],
    n: usize,
    run: &mut [u16],
    out: &mut [u8],
) -> Result<usize, Unlisted>
    ensures { Finishes keys.now n run.old out.old result run.new out.new }
{
    if (n <= 4098) & (n <= run.len()) {
        finish(keys, &mut run[0..n], out)
    } else {
        let refusal = Refusal::of(Cause::Room, 0);
        Err(Unlisted { refusal, count: 0 })
    }
}
