// Numbers, pairs and answers as bytes of a lent output: a number takes eight, little-endian, in two's complement; a pair takes 24, its X,
// Y and D; an answer 32, its outcome as a number and a pair. What has no room leaves the output as it was.

#![tactic(auto)]

ghost use Rattle.std.specs.Prelude.{◌≡◌};
ghost use Rattle.cells.specs.Cells.{point_bytes, answer_bytes, stored};

use lp::Point;

// A pair, in 24 bytes from a place on.
pub fn put_point(out: &mut [u8], at: usize, v: Point)
    ensures { out.new ≡ stored out.old at 24 (point_bytes v) }
{
    if out.len() < 24 || out.len() - 24 < at {
        return;
    }
    out[at..at + 8].copy_from_slice(&v.x.to_le_bytes());
    out[at + 8..at + 16].copy_from_slice(&v.y.to_le_bytes());
    out[at + 16..at + 24].copy_from_slice(&v.d.to_le_bytes());
}

// An answer, in 32 bytes from a place on.
pub fn put_answer(out: &mut [u8], at: usize, outcome: u64, v: Point)
    ensures { out.new ≡ stored out.old at 32 (answer_bytes outcome v) }
{
    if out.len() < 32 || out.len() - 32 < at {
        return;
    }
    out[at..at + 8].copy_from_slice(&outcome.to_le_bytes());
    put_point(&mut *out, at + 8, v);
}
