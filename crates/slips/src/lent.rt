// The weights of a best pair, from the book's bytes: it is read once more into two lent runs, one size for each size of book.
ghost use Rattle.std.specs.Prelude.{◌≡◌, ◌*◌, ◌≤◌};
ghost use Rattle.records.specs.Layout.{v2};
ghost use Rattle.book.specs.Runs.{Few};
ghost use Rattle.slip.specs.Runs.{SmallPair};
ghost use Rattle.slips.specs.Writing.{Lent, FewAt, BestOf};

use crate::pass::passed;
use crate::weights::optimum_weights;
use lp::{Constraint, Point};
use records::{Book, Version};
use slip::Weights;

// With the runs lent. A book that is turned back has no best pair, and nobody asks for its weights.
fn best_in(book: &[u8], v: Point, records: &mut [u16], rules: &mut [i64]) -> Weights
    requires { Lent book.now records.old rules.old v }
    ensures { BestOf book.now v result }
{
    let book = Book {
        version: Version::Two,
        bytes: book,
    };
    let Ok(head) = reading::read(&book, &mut *records, &mut *rules) else {
        return Weights::nothing(0);
    };
    let terms = head.terms;
    let f = terms.objective;
    let held = passed(f, v, terms.floors, &*records, &*rules, head.n);
    let normal = Constraint {
        a: f.p,
        b: f.q,
        c: 0,
    };
    optimum_weights(normal, held)
}

// Of a book with at most RULES rules. Each size is an instance of its own.
fn best_sized<const RULES: usize, const NUMBERS: usize>(book: &[u8], v: Point) -> Weights
    requires few { FewAt book.now RULES v }
    requires most { RULES ≤ 4095 }
    requires numbers { NUMBERS ≡ 3 * RULES }
    ensures { BestOf book.now v result }
{
    let mut records = [0u16; RULES];
    let mut rules = [0i64; NUMBERS];
    best_in(book, v, &mut records, &mut rules)
}

pub fn best_weights(book: &[u8], v: Point) -> Weights
    requires { SmallPair v }
    ensures { BestOf book.now v result }
{
    if book.len() <= 434 {
        best_sized::<30, 90>(book, v)
    } else {
        best_sized::<4095, 12285>(book, v)
    }
}
