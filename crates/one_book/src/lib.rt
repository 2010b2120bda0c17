// What is handed over of one book, of either version: the line of its plan, the start pair after a prefix of its chain, and its repacked
// form, each in a lent buffer, with one number that says what it came to. Programs print it, and crate `vishalneq` hands it to other
// languages. Every function is total: it takes any bytes and any buffer.

#![tactic(auto)]

ghost use Rattle.one_book.specs.Loaded.{PlanLine, StartWritten, RepackWritten};

use handed::{put_start, told};
use records::Book;

// The line of a book: written at the start of a buffer of at least 256 bytes, with its length. A smaller buffer is left as it is, and 0
// handed back.
pub fn plan_line(book: &Book, out: &mut [u8]) -> usize
    ensures { PlanLine book.now.layout book.now.bytes out.old out.new result }
{
    answer_line::write_line(planner::plan(book), out)
}

// The start pair after a book's first `prefix` rules: X, Y and D stand at the start of a buffer of at least three numbers, zeros where no
// pair is allowed, and the count is handed back. A refused book leaves the buffer as it is, and so does a smaller buffer; of a refused book
// 65,536 times its number plus its record is handed back.
pub fn start_numbers(book: &Book, prefix: usize, out: &mut [i64]) -> usize
    ensures { StartWritten book.now.layout book.now.bytes prefix out.old out.new result }
{
    put_start(planner::start_after(book, prefix), out)
}

// The repacked form of a book, always version 2, at the start of a buffer, and how many bytes it has. A book that is refused, and one whose
// repacked form has no room, leaves the buffer as it is, and 65,536 times its number plus its record is handed back.
pub fn repacked(book: &Book, out: &mut [u8]) -> usize
    ensures { RepackWritten book.now.layout book.now.bytes out.old out.new result }
{
    told(repacker::repack(book, out))
}
