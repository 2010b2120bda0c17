// A slip checked against a book's bytes. The book is read once into two lent runs, the chain's records and its rules. They are local to a
// function for each size of book, since clearing the longest takes several times what a short book takes.
ghost use Rattle.std.specs.Prelude.{◌≡◌, ◌*◌, ◌≤◌};
ghost use Rattle.records.specs.Layout.{v2};
ghost use Rattle.book.specs.Reading.{read_of};
ghost use Rattle.book.specs.Runs.{Few};
ghost use Rattle.slip.specs.Facts.{verdict_of};
ghost use Rattle.slip.specs.Runs.{Roomy};

use crate::facts::judged;
use records::{Book, Version};
use slip::{Slip, Verdict};

// With the runs lent.
fn check_in(book: &[u8], slip: Slip, records: &mut [u16], rules: &mut [i64]) -> Verdict
    requires { Roomy book.now records.old rules.old }
    ensures { result ≡ verdict_of (read_of v2 book.now) slip }
{
    let book = Book {
        version: Version::Two,
        bytes: book,
    };
    match reading::read(&book, &mut *records, &mut *rules) {
        Ok(head) => judged(head.terms, &*records, &*rules, head.n, slip),
        Err(refusal) => Verdict::Refused(refusal),
    }
}

// Of a book with at most RULES rules. Each size is an instance of its own.
pub fn check_sized<const RULES: usize, const NUMBERS: usize>(book: &[u8], slip: Slip) -> Verdict
    requires few { Few v2 book.now RULES }
    requires most { RULES ≤ 4095 }
    requires numbers { NUMBERS ≡ 3 * RULES }
    ensures { result ≡ verdict_of (read_of v2 book.now) slip }
{
    let mut records = [0u16; RULES];
    let mut rules = [0i64; NUMBERS];
    check_in(book, slip, &mut records, &mut rules)
}
