// The line of an answer written into a lent buffer, as crate `report` defines it.

#![tactic(auto)]

mod entries;
mod line;

ghost use Rattle.report.specs.Written.{Written, WrittenOf};

use answers::Answer;
use line::append_fields;
use report::Naming;
use text::{Line, append_word};

// The line of an answer, at the start of a buffer of at least 256 bytes, and its length. A smaller buffer is left as it is, and 0
// handed back.
pub fn write_line_of(naming: Naming, answer: Answer, out: &mut [u8]) -> usize
    ensures { WrittenOf naming answer out.old out.new result }
{
    if out.len() < 256 {
        return 0;
    }
    let mut line = Line { out, at: 0 };
    append_fields(naming, answer, &mut line);
    append_word(b"\n", &mut line);
    line.at
}

// That of the answer to one book.
pub fn write_line(answer: Answer, out: &mut [u8]) -> usize
    ensures { Written answer out.old out.new result }
{
    write_line_of(Naming::OneBook, answer, out)
}
