// A slip's line checked against a book: it is read back, and the checker judges what was read.

#![tactic(auto)]

ghost use Rattle.check_line.specs.Checks.{Checks};

use slip::Verdict;
use slip_reader::read_slip;

// What the checker says of the slip that a text says. A text that is no line stands for a slip that is out of range for every book.
pub fn check_line(book: &[u8], text: &[u8]) -> Verdict
    ensures { Checks book.now text.now result }
{
    match read_slip(text) {
        None => slip_numbers::check_numbers(book, &[]),
        Some(s) => checking::check(book, s),
    }
}
