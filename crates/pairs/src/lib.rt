// Pairs and directions on a line, each number after one space. A line whose buffer has no room for them stays as it is.

#![tactic(auto)]

ghost use Rattle.text.specs.Line.{Adds};
ghost use Rattle.pairs.specs.Pair.{pair, direction};

use lp::{Point, Ray};
use numerals::append_integer;
use text::Line;

// A pair: X, Y and D.
pub fn append_pair(v: Point, line: &mut Line)
    ensures { Adds line.old (pair v) 63 line.new }
{
    if line.lacks_room(63) {
        return;
    }
    append_integer(v.x, line);
    append_integer(v.y, line);
    append_integer(v.d, line);
}

// A direction: dx and dy.
pub fn append_direction(d: Ray, line: &mut Line)
    ensures { Adds line.old (direction d) 42 line.new }
{
    if line.lacks_room(42) {
        return;
    }
    append_integer(d.dx, line);
    append_integer(d.dy, line);
}
