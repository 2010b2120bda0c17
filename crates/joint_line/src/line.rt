// The line of a book that is turned back, part by part, on a line that has room for it.
ghost use Rattle.text.specs.Line.{RoomIn, Added};
ghost use Rattle.joint_line.specs.JointLine.{book_name, turned};

use answers::Refusal;
use numerals::append_number;
use text::{Line, append_word};

// The name of a book.
fn append_book(tenant: bool, line: &mut Line)
    requires { RoomIn line.old 7 }
    ensures { Added line.old (book_name tenant) 7 line.new }
{
    if tenant {
        append_word(b" tenant", line)
    } else {
        append_word(b" site", line)
    }
}

// The line of a book that is turned back, but for its line feed.
pub fn append_turned(tenant: bool, refusal: Refusal, line: &mut Line)
    requires { RoomIn line.old 56 }
    ensures { Added line.old (turned tenant refusal) 56 line.new }
{
    append_word(b"refused", line);
    append_book(tenant, line);
    append_number(refusal.number as usize, line);
    append_number(refusal.at as usize, line);
}
