// A corner's line: X, Y and D in decimal, one space between them, and a line feed.

#![tactic(auto)]

ghost use Rattle.text.specs.Number.{signed};
ghost use Rattle.text.specs.Line.{Adds};
ghost use Rattle.corner_line.specs.Line.{corner_line};

use lp::Point;
use numerals::{append_decimal, append_integer};
use text::{Line, append_word};

// A number with its sign, and no space before it.
fn append_first(z: i64, line: &mut Line)
    ensures { Adds line.old (signed z) 21 line.new }
{
    if line.lacks_room(21) {
        return;
    }
    if z < 0 {
        append_word(b"-", line);
    }
    append_decimal(ints::magnitude(z) as usize, line);
}

// The line, on one that has 64 bytes left; one with fewer is left as it is.
pub fn append_corner(v: Point, line: &mut Line)
    ensures { Adds line.old (corner_line v) 64 line.new }
{
    if line.lacks_room(64) {
        return;
    }
    append_first(v.x, line);
    append_integer(v.y, line);
    append_integer(v.d, line);
    append_word(b"\n", line);
}
