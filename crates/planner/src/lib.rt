// The planner on bytes: a book is read once into lent runs of numbers, its rules are planned there, and what they come to is handed back as
// a plan, as the lines of a panel, or as the start pair after a prefix. Every function that can be called from outside is total: it takes
// any bytes, as a book of either version, and answers.

#![tactic(auto)]

mod told;

ghost use Rattle.planner.specs.Planning.{Answers};
ghost use Rattle.planner.specs.Panel.{Panels};
ghost use Rattle.planner.specs.View.{Views};

use answers::{Answer, Refusal};
use lp::Point;
use records::Book;
use told::{tell, tell_few};

// The start pair after a prefix of the chain, if a pair is allowed, and how many rules so far the start pair before them did not keep.
#[derive(Clone, Copy)]
pub struct StartView {
    pub start: Option<Point>,
    pub restarts: usize,
}

// The plan of a book of either version, or its refusal. Every field is fixed by the bytes but the witness, which is any valid one.
pub fn plan(book: &Book) -> Answer
    ensures { Answers book.now.layout book.now.bytes result }
{
    if book.bytes.len() <= 256 * book.width() {
        tell_few(book, 65535, &mut []).answer
    } else {
        tell(book, 65535, &mut []).answer
    }
}

// The lines of a book's panel, how far its best pair is from each rule, at the start of a buffer, and how many bytes they have. The buffer
// has at least 16,384 bytes for version 1 and 262,144 for version 2; a smaller one is left as it is, and 0 handed back.
pub fn panel_lines(book: &Book, out: &mut [u8]) -> usize
    ensures { Panels book.now.layout book.now.bytes out.old out.new result }
{
    if book.bytes.len() <= 256 * book.width() {
        tell_few(book, 65535, out).count
    } else {
        tell(book, 65535, out).count
    }
}

// The view of a book's first `prefix` rules, along its chain, or its refusal. A prefix longer than the chain is the whole chain.
pub fn start_after(book: &Book, prefix: usize) -> Result<StartView, Refusal>
    ensures { Views book.now.layout book.now.bytes prefix result }
{
    if book.bytes.len() <= 256 * book.width() {
        tell_few(book, prefix, &mut []).view
    } else {
        tell(book, prefix, &mut []).view
    }
}
