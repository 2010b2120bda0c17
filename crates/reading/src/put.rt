// The runs that are lent to a reading. What does not fit is left out.
ghost use Rattle.std.specs.Prelude.{◌≡◌, ◌<◌, ◌^◌, set};
ghost use Rattle.book.specs.Runs.{put_entry};

use lp::Constraint;

// A record's index, at a place of its run.
pub fn put_record(run: &mut [u16], k: usize, index: u16)
    ensures { run.new ≡ set run.old k index }
{
    if k < run.len() {
        run[k] = index;
    }
}

// A constraint, at a place of its run.
pub fn put_entry(run: &mut [i64], k: usize, c: Constraint)
    requires { k < 2 ^ 32 }
    ensures { run.new ≡ put_entry run.old k c }
{
    let at = 3 * k;
    if at + 2 < run.len() {
        let a = c.a;
        let b = c.b;
        let limit = c.c;
        run[at] = a;
        run[at + 1] = b;
        run[at + 2] = limit;
    }
}
