// The panel of a book: the slack of its best pair against each rule of the chain, a line a rule, each written straight into the lent
// output. What is shown is lent in the chain's records, so that this stands beside the walk and knows nothing of it.

#![tactic(auto)]

ghost use Rattle.std.specs.Prelude.{◌≡◌, map, ◌*◌, ◌≤◌, length};
ghost use Rattle.text.specs.Line.{RoomIn, Added};
ghost use Rattle.panel_row.specs.Panel.{row_lines};
ghost use Rattle.showing.specs.Showing.{panel_room as panel_room_of, row_for, Shows};

use answers::Refusal;
use lp::{Outcome, Point};
use panel_row::{Row, append_row};
use records::{Book, Version};
use text::Line;

// How many bytes a panel's buffer has at least: 64 for each record of the greatest book, and enough for a refusal's line. It is a match of
// two constants, which a product of a version's numbers would spell longer.
fn panel_room(book: &Book) -> usize
    ensures room { result ≡ panel_room_of book.now.layout }
    ensures for_a_refusal { 256 ≤ result }
{
    match book.version {
        Version::One => 16384,
        Version::Two => 262144,
    }
}

// The label and slack of the rule in a record.
fn row(book: &Book, index: u16, v: Point) -> Row
    ensures { result ≡ row_for book.now.layout book.now.bytes v index }
{
    let rule = decoding::rule_at(book, index);
    Row {
        label: rule.label,
        slack: amounts::amount(rules::constraint(rule), v),
    }
}

// The lines of the records.
fn list(book: &Book, records: &[u16], v: Point, line: &mut Line)
    requires { RoomIn line.old (64 * length records.now) }
    ensures { Added line.old (row_lines (map (row_for book.now.layout book.now.bytes v) records.now)) (64 * length records.now) line.new }
{
    for &index in records {
        append_row(row(book, index, v), line);
    }
}

// The panel of a book by its refusal, or else by the outcome and the records of its chain, and how many bytes it has. The buffer has at
// least 16,384 bytes for version 1 and 262,144 for version 2; a smaller one is left as it is, and 0 handed back. So is any, where there
// are more records than a book can have.
pub fn show(
    book: &Book,
    outcome: Result<Outcome, Refusal>,
    records: &[u16],
    out: &mut [u8],
) -> usize
    ensures { Shows book.now.layout book.now.bytes outcome records.now out.old out.new result }
{
    let room = panel_room(book);
    if out.len() < room {
        return 0;
    }
    match outcome {
        Err(refusal) => answer_line::write_line(Err(refusal), out),
        Ok(Outcome::Optimal(v)) if records.len() <= room / 64 => {
            let mut line = Line { out, at: 0 };
            list(book, records, v, &mut line);
            line.at
        }
        Ok(_) => 0,
    }
}
