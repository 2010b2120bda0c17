// What a partner's controller loads: the planner's answers, the repacked form, joined books, corners, batches and slips. Each function
// writes to a lent buffer and hands back a count; it only calls what the other crates promise. A version of the format has its own
// functions, which refuse the other version's books by their own table; the names of version 2's end in 2. Crate `vishalneq_c` exports each
// to programs in other languages under the same name and promise.

#![tactic(auto)]

mod corners;
mod exchange;
mod joint;
mod prices;

ghost use Rattle.std.specs.Prelude.{◌≡◌};
ghost use Rattle.records.specs.declared.Version.TheVariants as version;
ghost use Rattle.records.specs.Layout.{v1, v2};
ghost use Rattle.records.specs.Encoded.{encoded};
ghost use Rattle.planner.specs.Panel.{Panels};
ghost use Rattle.one_book.specs.Loaded.{PlanLine, StartWritten, RepackWritten};

pub use corners::vishalneq_corners;
pub use exchange::{vishalneq_check, vishalneq_slip};
pub use joint::vishalneq_joint;
pub use prices::vishalneq_batch;
use records::{Book, Version};

// Bytes as a book of version 1.
fn one<'a>(bytes: &'a [u8]) -> Book<'a>
    ensures { result ≡ encoded version.One bytes.entry.now }
{
    Book {
        version: Version::One,
        bytes,
    }
}

// Bytes as a book of version 2.
fn two<'a>(bytes: &'a [u8]) -> Book<'a>
    ensures { result ≡ encoded version.Two bytes.entry.now }
{
    Book {
        version: Version::Two,
        bytes,
    }
}

// The line of a book of version 1: written at the start of a buffer of at least 256 bytes, with its length. A smaller buffer is left as it
// is, and 0 handed back.
pub fn vishalneq_plan_line(book: &[u8], out: &mut [u8]) -> usize
    ensures { PlanLine v1 book.now out.old out.new result }
{
    one_book::plan_line(&one(book), out)
}

// The line of a book of version 2.
pub fn vishalneq_plan_line2(book: &[u8], out: &mut [u8]) -> usize
    ensures { PlanLine v2 book.now out.old out.new result }
{
    one_book::plan_line(&two(book), out)
}

// The lines of a version 1 book's panel: written at the start of a buffer of at least 16,384 bytes, with their length. A smaller buffer is
// left as it is, and 0 handed back.
pub fn vishalneq_panel_lines(book: &[u8], out: &mut [u8]) -> usize
    ensures { Panels v1 book.now out.old out.new result }
{
    planner::panel_lines(&one(book), out)
}

// Those of a version 2 book's panel, in a buffer of at least 262,144 bytes.
pub fn vishalneq_panel_lines2(book: &[u8], out: &mut [u8]) -> usize
    ensures { Panels v2 book.now out.old out.new result }
{
    planner::panel_lines(&two(book), out)
}

// The start pair after the first `prefix` rules of a book of version 1: X, Y and D stand at the start of a buffer of at least three
// numbers, zeros where no pair is allowed, and the count is handed back. A refused book leaves the buffer as it is, and so does a smaller
// buffer; of a refused book 65,536 times its number plus its record is handed back.
pub fn vishalneq_start_after(book: &[u8], prefix: usize, out: &mut [i64]) -> usize
    ensures { StartWritten v1 book.now prefix out.old out.new result }
{
    one_book::start_numbers(&one(book), prefix, out)
}

// The start pair of a book of version 2.
pub fn vishalneq_start_after2(book: &[u8], prefix: usize, out: &mut [i64]) -> usize
    ensures { StartWritten v2 book.now prefix out.old out.new result }
{
    one_book::start_numbers(&two(book), prefix, out)
}

// The repacked form of a book of version 1, always version 2, at the start of a buffer, and how many bytes it has. A book that is refused,
// and one whose repacked form has no room, leaves the buffer as it is, and 65,536 times its number plus its record is handed back.
pub fn vishalneq_repack(book: &[u8], out: &mut [u8]) -> usize
    ensures { RepackWritten v1 book.now out.old out.new result }
{
    one_book::repacked(&one(book), out)
}

// The repacked form of a book of version 2.
pub fn vishalneq_repack2(book: &[u8], out: &mut [u8]) -> usize
    ensures { RepackWritten v2 book.now out.old out.new result }
{
    one_book::repacked(&two(book), out)
}
