// The frame of the rules: the floors as the first two entries of a run, and the line at infinity as the one after the rules.
ghost use Rattle.std.specs.Prelude.{◌≡◌};
ghost use Rattle.engine.specs.Entries.{put_entry};
ghost use Rattle.engine.specs.Sizes.{Room};
ghost use Rattle.region.specs.Listing.{framed};
ghost use Rattle.region.specs.Asked.{Framing};

use flooring::lay_floors;
use lp::{Constraint, Floors};

fn put_entry(run: &mut [i64], k: usize, r: Constraint)
    requires { Room run.old k }
    ensures { run.new ≡ put_entry run.old k r }
{
    let at = 3 * k;
    let a = r.a;
    let b = r.b;
    let c = r.c;
    run[at] = a;
    run[at + 1] = b;
    run[at + 2] = c;
}

pub fn frame(floors: Floors, run: &mut [i64], n: usize)
    requires { Framing floors run.old n }
    ensures { run.new ≡ framed floors run.old n }
{
    lay_floors(floors, &mut *run);
    put_entry(run, n + 2, Constraint { a: 0, b: 0, c: 1 });
}
