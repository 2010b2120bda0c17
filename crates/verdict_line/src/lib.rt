// The line of what the checker says.

#![tactic(auto)]

ghost use Rattle.text.specs.Line.{RoomIn, Added};
ghost use Rattle.verdict_line.specs.Verdict.{verdict_text, VerdictWritten};

use refusal_text::append_refused;
use slip::Verdict;
use text::{Line, append_word};

// The line but for its line feed.
fn append_verdict(v: Verdict, line: &mut Line)
    requires { RoomIn line.old 49 }
    ensures { Added line.old (verdict_text v) 49 line.new }
{
    match v {
        Verdict::Refused(refusal) => append_refused(refusal.number, refusal.at, line),
        Verdict::Yes => append_word(b"yes", line),
        Verdict::No => append_word(b"no", line),
    }
}

// `yes`, `no` or the `refused` line at the start of a buffer of at least 64 bytes, and its length. A smaller buffer is left as it is, and 0
// handed back.
pub fn write_verdict(v: Verdict, out: &mut [u8]) -> usize
    ensures { VerdictWritten v out.old out.new result }
{
    if out.len() < 64 {
        return 0;
    }
    let mut line = Line { out, at: 0 };
    append_verdict(v, &mut line);
    append_word(b"\n", &mut line);
    line.at
}
