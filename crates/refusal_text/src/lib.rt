// What every program prints of something turned back, on a line: a word and two numbers.

#![tactic(auto)]

ghost use Rattle.text.specs.Number.{refused};
ghost use Rattle.text.specs.Line.{Adds};

use numerals::append_number;
use text::{Line, append_word};

// What is turned back: the cause's number and the record that it names.
pub fn append_refused(number: u8, index: u16, line: &mut Line)
    ensures { Adds line.old (refused number index) 49 line.new }
{
    if line.lacks_room(49) {
        return;
    }
    append_word(b"refused", line);
    append_number(number as usize, line);
    append_number(index as usize, line);
}
