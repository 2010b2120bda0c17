// The line of what a typed text reads as: `rule kind a b c`, or `refused number 0`.
ghost use Rattle.text.specs.Line.{RoomIn, Added};
ghost use Rattle.typed_line.specs.Typed.{rule_fields, typed_fields, TypedWritten};

use forms::{Sense, Typed, Written};
use numerals::{append_integer, append_number};
use refusal_text::append_refused;
use text::{Line, append_word};

// The line of a rule, but for its line feed.
fn append_rule(w: Written<Sense>, line: &mut Line)
    requires { RoomIn line.old 88 }
    ensures { Added line.old (rule_fields w) 88 line.new }
{
    append_word(b"rule", line);
    append_number(w.sense.number() as usize, line);
    append_integer(w.a, line);
    append_integer(w.b, line);
    append_integer(w.c, line);
}

// The line of a typed text, but for its line feed.
fn append_typed(t: Typed, line: &mut Line)
    requires { RoomIn line.old 88 }
    ensures { Added line.old (typed_fields t) 88 line.new }
{
    match t {
        Ok(w) => append_rule(w, line),
        Err(flaw) => {
            let refusal = flaw.refusal();
            append_refused(refusal.number, refusal.at, line)
        }
    }
}

// The line of a typed text, at the start of a buffer of at least 96 bytes, and its length. A smaller buffer is left as it is, and 0
// handed back.
pub fn write_typed(t: Typed, out: &mut [u8]) -> usize
    ensures { TypedWritten t out.old out.new result }
{
    if out.len() < 96 {
        return 0;
    }
    let mut line = Line { out, at: 0 };
    append_typed(t, &mut line);
    append_word(b"\n", &mut line);
    line.at
}
