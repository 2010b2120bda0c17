// Points as bytes of a lent output, one after the other, by their indices. Nothing is written unless all of it has room.

#![tactic(auto)]

ghost use Rattle.std.specs.Prelude.{◌≡◌};
ghost use Rattle.listing.specs.Listing.{Lists, Listing, written};

use cells::put_point;
use sorting::keys::point_at;

// The points at the first n indices of a run.
fn put_points(keys: &[i64], run: &[u16], n: usize, out: &mut [u8])
    requires { Listing run.now n out.old }
    ensures { out.new ≡ written keys.now run.now n out.old }
{
    for i in 0..n {
        put_point(&mut *out, 24 * i, point_at(keys, run[i]));
    }
}

// Writes the points at the first n indices of a run, 24 bytes each, if the run has so many and the output has room; says whether.
pub fn list_points(keys: &[i64], run: &[u16], n: usize, out: &mut [u8]) -> bool
    ensures { Lists keys.now run.now n out.old result out.new }
{
    if run.len() < n {
        return false;
    }
    if out.len() / 24 < n {
        return false;
    }
    put_points(keys, run, n, out);
    true
}
