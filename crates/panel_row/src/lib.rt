// The panel of a book: how far its best pair is from each rule, a line a rule. The planner puts line after line into its output, so
// that a line is all that is made here.

#![tactic(auto)]

ghost use Rattle.text.specs.Line.{Adds};
ghost use Rattle.panel_row.specs.Panel.{row_line};

use lp::Amount;
use numerals::{append_decimal, append_integer};
use text::{Line, append_word};

// A rule's label, and how far the best pair is from its line.
#[derive(Clone, Copy)]
pub struct Row {
    pub label: u16,
    pub slack: Amount,
}

// A rule's line, on a line that has 64 bytes left; one with fewer is left as it is.
pub fn append_row(row: Row, line: &mut Line)
    ensures { Adds line.old (row_line row) 64 line.new }
{
    if line.lacks_room(64) {
        return;
    }
    append_decimal(row.label as usize, line);
    append_integer(row.slack.numerator, line);
    append_integer(row.slack.denominator, line);
    append_word(b"\n", line);
}
