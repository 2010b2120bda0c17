// Numbers on a line, in decimal. A line whose buffer has no room for the number stays as it is.

#![tactic(auto)]

ghost use Rattle.std.specs.Prelude.{pos};
ghost use Rattle.text.specs.Number.{sign, decimal, number, integer};
ghost use Rattle.text.specs.Line.{RoomIn, Added, Adds};

use digits::append_digits;
use text::{Line, append_word};

mod digits;

// A number in decimal, with no space before it: at most 20 digits.
pub fn append_decimal(n: usize, line: &mut Line)
    ensures { Adds line.old (decimal n) 20 line.new }
{
    if line.lacks_room(20) {
        return;
    }
    append_digits(n, line);
}

// A space and a number.
pub fn append_number(n: usize, line: &mut Line)
    ensures { Adds line.old (number n) 21 line.new }
{
    if line.lacks_room(21) {
        return;
    }
    append_word(b" ", line);
    append_decimal(n, line);
}

// What stands before the digits of a number with its sign.
fn append_sign(z: i64, line: &mut Line)
    requires { RoomIn line.old 2 }
    ensures { Added line.old (sign z) 2 line.new }
{
    if z < 0 {
        append_word(b" -", line)
    } else {
        append_word(b" ", line)
    }
}

// A space and a number with its sign: a magnitude has at most 19 digits.
pub fn append_integer(z: i64, line: &mut Line)
    ensures { Adds line.old (integer z) 21 line.new }
{
    if line.lacks_room(21) {
        return;
    }
    append_sign(z, line);
    append_digits(ints::magnitude(z) as usize, line);
}
