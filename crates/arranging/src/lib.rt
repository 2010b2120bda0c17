// Points put in order without repeats, by their indices: the indices are sorted, and of points that are the same the first is kept.

#![tactic(auto)]

ghost use Rattle.std.specs.Prelude.{◌≡◌, ◌≤◌, length};
ghost use Rattle.sorting.specs.Keys.{comes_at};
ghost use Rattle.arranging.specs.Arranging.{indices, kept_run, Kept, Stepped, Stepping, Arranged};

use sorting::keys::{ByPlace, Order};
use sorting::sort;

// The run counts 0, 1, 2 and so on.
fn count_up(run: &mut [u16])
    requires { length run.old ≤ 4098 }
    ensures { run.new ≡ indices 0 (length run.old) }
{
    for (i, place) in run.iter_mut().enumerate() {
        *place = i as u16;
    }
}

// The index at place i is kept, at place k, if its point comes after that of the last one kept; how many are kept then.
fn keep_next<O: Order>(order: &O, run: &mut [u16], i: usize, k: usize) -> usize
    requires { Stepping run.old i k }
    ensures { Stepped (O.comes order.now) i k run.old result run.new }
{
    let last = run[k - 1];
    let next = run[i];
    if order.comes(last, next) {
        run[k] = next;
        k + 1
    } else {
        k
    }
}

// Keeps one index for each point of a sorted run, in its front, and says how many.
fn keep_distinct<O: Order>(order: &O, run: &mut [u16]) -> usize
    ensures { Kept (O.comes order.now) run.old result run.new }
{
    if run.is_empty() {
        return 0;
    }
    let mut k = 1;
    for i in 1..run.len() {
        k = keep_next(order, &mut *run, i, k);
    }
    k
}

// The first points of the keys, as many as the run is long, in order: the front of the run has their indices, smaller x first, then
// smaller y, and none twice; how many these are. A run of more than 4,098 stays as it is.
pub fn arrange(keys: &[i64], run: &mut [u16]) -> usize
    ensures { Arranged (comes_at keys.now) run.old result run.new }
{
    if 4098 < run.len() {
        return 0;
    }
    let order = ByPlace { keys };
    count_up(&mut *run);
    sort(&order, &mut *run);
    keep_distinct(&order, run)
}
