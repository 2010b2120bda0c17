// The corners of a book with the runs that they take, which are local to a function for each size of book, since clearing the longest takes
// several times what a short book takes.
ghost use Rattle.std.specs.Prelude.{◌≡◌, ◌+◌, ◌*◌, ◌≤◌};
ghost use Rattle.records.specs.Layout.{v2};
ghost use Rattle.book.specs.Runs.{Few};
ghost use Rattle.outline.specs.Outline.{Outlines};
ghost use Rattle.laying.proofs.Layouts.{count_of};
ghost use Rattle.batching.specs.Asked.{Roomy};

use laying::lay;
use outline::Unlisted;
use outlining::list_corners;
use records::{Book, Version};

// How many points were listed.
fn count_of(listed: Option<usize>) -> usize
    ensures { result ≡ count_of listed }
{
    listed.unwrap_or(0)
}

// With the runs lent: the book's own refusals, and then the list. The records of the chain give way to the order in which the rules enter,
// which is always that of their angles, and the ring to the order of the corners.
fn corners_in(
    book: &[u8],
    out: &mut [u8],
    records: &mut [u16],
    run: &mut [i64],
    ring: &mut [u16],
    keys: &mut [i64],
) -> Result<usize, Unlisted>
    requires { Roomy book.now records.old run.old ring.old keys.old }
    ensures { Outlines book.now out.old result out.new }
{
    let book = Book {
        version: Version::Two,
        bytes: book,
    };
    let head = match reading::read(&book, &mut *records, &mut run[6..]) {
        Ok(head) => head,
        Err(refusal) => return Err(Unlisted { refusal, count: 0 }),
    };
    let listed = lay(
        head.terms.floors,
        run,
        &mut records[..head.n],
        &mut *ring,
        &mut *keys,
    );
    list_corners(&*keys, count_of(listed), ring, out)
}

// Of a book with at most RULES rules. Each size is an instance of its own.
pub fn corners_sized<const RULES: usize, const NUMBERS: usize, const RING: usize>(
    book: &[u8],
    out: &mut [u8],
) -> Result<usize, Unlisted>
    requires few { Few v2 book.now RULES }
    requires most { RULES ≤ 4095 }
    requires numbers { NUMBERS ≡ 3 * (RULES + 3) }
    requires ring { RING ≡ 2 * (RULES + 4) }
    ensures { Outlines book.now out.old result out.new }
{
    let mut records = [0u16; RULES];
    let mut run = [0i64; NUMBERS];
    let mut ring = [0u16; RING];
    let mut keys = [0i64; NUMBERS];
    corners_in(book, out, &mut records, &mut run, &mut ring, &mut keys)
}
