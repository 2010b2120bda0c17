// The printed line of a slip, or of the book's refusal, in a lent buffer.

#![tactic(auto)]

ghost use Rattle.text.specs.Line.{RoomIn, Added};
ghost use Rattle.slip_line.specs.Line.{written_fields, LineWritten};

use answers::Refusal;
use refusal_text::append_refused;
use slip::Slip;
use slip_text::append_slip;
use text::{Line, append_word};

fn append_written(written: Result<Slip, Refusal>, line: &mut Line)
    requires { RoomIn line.old 235 }
    ensures { Added line.old (written_fields written) 235 line.new }
{
    match written {
        Ok(slip) => append_slip(slip, line),
        Err(refusal) => append_refused(refusal.number, refusal.at, line),
    }
}

// The line of a slip, or of the book's refusal, at the start of a buffer of at least 256 bytes, and its length. A smaller buffer is left as
// it is, and 0 handed back.
pub fn write_slip(written: Result<Slip, Refusal>, out: &mut [u8]) -> usize
    ensures { LineWritten written out.old out.new result }
{
    if out.len() < 256 {
        return 0;
    }
    let mut line = Line { out, at: 0 };
    append_written(written, &mut line);
    append_word(b"\n", &mut line);
    line.at
}
