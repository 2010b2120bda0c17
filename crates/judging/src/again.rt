// A record whose label was met before: whether it is a record that was passed, or another with the label of one. Either turns the book
// back, so this is asked once at most, and a lawful book needs no marks of the records passed.
ghost use Rattle.std.specs.Prelude.{◌≡◌};
ghost use Rattle.book.specs.Judging.{is_passed, again};

use answers::{Cause, Refusal};
use records::Book;

// Whether the first n links from the header on lead to a record.
fn passed(book: &Book, n: usize, index: u16) -> bool
    ensures { result ≡ is_passed book.now.layout book.now.bytes n index }
{
    let mut found = false;
    let mut at: u16 = 0;
    for _ in 0..n {
        at = book.fields_at(at).link;
        found |= index == at;
    }
    found
}

// The refusal of a link of record `at` to a record whose label was met, where n records were passed.
pub fn again(book: &Book, n: usize, at: u16, link: u16) -> Refusal
    ensures { result ≡ again book.now.layout book.now.bytes n at link }
{
    if passed(book, n, link) {
        Refusal::of(Cause::Loop, at)
    } else {
        Refusal::of(Cause::Label, link)
    }
}
