// The checker of slips. It knows neither the planner nor its walk: it reads the book, looks up what the slip names and tests document 02's
// facts. `check` can be called from outside and is total.

#![tactic(auto)]

mod entries;
mod facts;
mod lent;
mod named;
mod sums;

ghost use Rattle.std.specs.Prelude.{◌≡◌};
ghost use Rattle.records.specs.Layout.{v2};
ghost use Rattle.book.specs.Reading.{read_of};
ghost use Rattle.slip.specs.Facts.{verdict_of};

use slip::{Slip, Verdict};

// What the checker says of a slip for a book of version 2, whoever wrote it: the book's own refusal, else 17 where the slip is out of
// range, else yes exactly if the facts hold.
pub fn check(book: &[u8], slip: Slip) -> Verdict
    ensures { result ≡ verdict_of (read_of v2 book.now) slip }
{
    if book.len() <= 434 {
        return lent::check_sized::<30, 90>(book, slip);
    }
    if book.len() <= 3584 {
        lent::check_sized::<255, 765>(book, slip)
    } else {
        lent::check_sized::<4095, 12285>(book, slip)
    }
}
