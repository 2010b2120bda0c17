// Slips for programs in other languages, as runs of 14 numbers: the planner's slip of a book, and what the checker says of one. Books are
// of version 2.
ghost use Rattle.std.specs.Prelude.{◌≡◌};
ghost use Rattle.records.specs.Layout.{v2};
ghost use Rattle.book.specs.Reading.{read_of};
ghost use Rattle.slip.specs.Facts.{verdict_of};
ghost use Rattle.slip_numbers.specs.Form.{slip_of};
ghost use Rattle.handed.specs.Told.{verdict_told};
ghost use Rattle.vishalneq.specs.Exchange.{SlipWritten};

use handed::{told, verdict_told};

// What the checker says of a slip of 14 numbers.
pub fn vishalneq_check(book: &[u8], slip: &[i64]) -> usize
    ensures { result ≡ verdict_told (verdict_of (read_of v2 book.now) (slip_of slip.now)) }
{
    verdict_told(slip_numbers::check_numbers(book, slip))
}

// The planner's slip of a book: its 14 numbers at the start of a run, and 14 handed back. A run that is too short is left as it is, and 0
// handed back. A refused book leaves it as it is too, and 65,536 times its number plus its record is handed back.
pub fn vishalneq_slip(book: &[u8], out: &mut [i64]) -> usize
    ensures { SlipWritten book.now out.old out.new result }
{
    match slips::slip_of(book) {
        Err(refusal) => told(Err(refusal)),
        Ok(slip) => slip_numbers::put_slip(slip, out),
    }
}
