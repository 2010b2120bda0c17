// A batch with its runs of numbers, which are local to a function for each size of book, since clearing the longest takes several times
// what a short book takes.
ghost use Rattle.records.specs.Layout.{v2};
ghost use Rattle.book.specs.Runs.{Few};
ghost use Rattle.std.specs.Prelude.{◌≡◌, ◌+◌, ◌*◌, ◌≤◌};
ghost use Rattle.batching.specs.Promises.{Batches};
ghost use Rattle.batching.specs.Asked.{batched_by, Roomy};

use answers::Refusal;
use offering::{Unanswered, answer};
use records::{Book, Version};

// What a batch hands back for what its objectives were answered. An accepted book's numbers are all within their ranges.
fn batched(answered: Result<usize, Unanswered>) -> Result<usize, Refusal>
    ensures { result ≡ batched_by answered }
{
    match answered {
        Ok(filled) => Ok(filled),
        Err(Unanswered::Outside) => Ok(0),
        Err(Unanswered::Declined(cause)) => Err(Refusal::of(cause, 0)),
    }
}

// With the runs lent: the book's own refusals, then 16, then 11, and then the answers. The records of the chain give way to the order in
// which the rules enter the region's boundary.
fn batch_in(
    book: &[u8],
    objectives: &[u8],
    out: &mut [u8],
    records: &mut [u16],
    run: &mut [i64],
    ring: &mut [u16],
    corners: &mut [i64],
) -> Result<usize, Refusal>
    requires { Roomy book.now records.old run.old ring.old corners.old }
    ensures { Batches book.now objectives.now out.old result out.new }
{
    let book = Book {
        version: Version::Two,
        bytes: book,
    };
    let head = reading::read(&book, &mut *records, &mut run[6..])?;
    batched(answer(
        head.terms.floors,
        run,
        &mut records[..head.n],
        ring,
        corners,
        objectives,
        out,
    ))
}

// Of a book with at most RULES rules. Each size is an instance of its own.
pub fn batch_sized<const RULES: usize, const NUMBERS: usize, const RING: usize>(
    book: &[u8],
    objectives: &[u8],
    out: &mut [u8],
) -> Result<usize, Refusal>
    requires few { Few v2 book.now RULES }
    requires most { RULES ≤ 4095 }
    requires numbers { NUMBERS ≡ 3 * (RULES + 3) }
    requires ring { RING ≡ 2 * (RULES + 4) }
    ensures { Batches book.now objectives.now out.old result out.new }
{
    let mut records = [0u16; RULES];
    let mut run = [0i64; NUMBERS];
    let mut ring = [0u16; RING];
    let mut corners = [0i64; NUMBERS];
    batch_in(
        book,
        objectives,
        out,
        &mut records,
        &mut run,
        &mut ring,
        &mut corners,
    )
}
