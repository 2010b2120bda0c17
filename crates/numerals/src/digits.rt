// The digits of a number. They are put into a buffer, and not on a line: there each digit would load and store the line's place anew, and a
// number take half as long again.
ghost use Rattle.std.specs.Prelude.{length};
ghost use Rattle.text.specs.Number.{two_digits, decimal};
ghost use Rattle.text.specs.Append.{HasRoom, HasRoomForTwo, Appended};
ghost use Rattle.text.specs.Line.{RoomIn, Added};

use text::Line;

// A number below 100 as two digits from a place on, and the place after them.
fn put_two(n: usize, out: &mut [u8], at: usize) -> usize
    requires { HasRoomForTwo n out.old at }
    ensures { Appended out.old at (two_digits n) 2 out.new result }
{
    out[at] = b'0' + (n / 10) as u8;
    out[at + 1] = b'0' + (n % 10) as u8;
    at + 2
}

// A number in decimal at the start of a buffer, and how many digits it has: those before the last two come first.
fn put_decimal(n: usize, out: &mut [u8]) -> usize
    requires { HasRoom out.old 0 (length (decimal n)) }
    ensures { Appended out.old 0 (decimal n) (length (decimal n)) out.new result }
{
    if n < 10 {
        out[0] = b'0' + n as u8;
        1
    } else if n < 100 {
        put_two(n, out, 0)
    } else {
        let next = put_decimal(n / 100, out);
        put_two(n % 100, out, next)
    }
}

// The digits of a number, on a line that has room for them.
pub fn append_digits(n: usize, line: &mut Line)
    requires { RoomIn line.old (length (decimal n)) }
    ensures { Added line.old (decimal n) (length (decimal n)) line.new }
{
    let count = put_decimal(n, &mut line.out[line.at..]);
    line.at += count;
}
