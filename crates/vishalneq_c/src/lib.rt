// What programs in other languages load: each function of crate `vishalneq`, exported under its name and with its promise, in a static
// library. include/vishalneq.h declares them to C. A slice is passed as a pointer and then its length.

#![tactic(auto)]

ghost use Rattle.std.specs.Prelude.{◌≡◌};
ghost use Rattle.records.specs.Layout.{v1, v2};
ghost use Rattle.book.specs.Reading.{read_of};
ghost use Rattle.slip.specs.Facts.{verdict_of};
ghost use Rattle.slip_numbers.specs.Form.{slip_of};
ghost use Rattle.handed.specs.Told.{verdict_told};
ghost use Rattle.planner.specs.Panel.{Panels};
ghost use Rattle.one_book.specs.Loaded.{PlanLine, StartWritten, RepackWritten};
ghost use Rattle.joint_line.specs.OfBooks.{JointLine};
ghost use Rattle.vishalneq.specs.Corners.{CornersWritten};
ghost use Rattle.vishalneq.specs.Batch.{BatchWritten};
ghost use Rattle.vishalneq.specs.Exchange.{SlipWritten};

// The line of a book of version 1: written at the start of a buffer of at least 256 bytes, with its length. A smaller buffer is left as it
// is, and 0 handed back.
#[unsafe(no_mangle)]
pub extern "C" fn vishalneq_plan_line(book: &[u8], out: &mut [u8]) -> usize
    ensures { PlanLine v1 book.now out.old out.new result }
{
    vishalneq::vishalneq_plan_line(book, out)
}

// The line of a book of version 2.
#[unsafe(no_mangle)]
pub extern "C" fn vishalneq_plan_line2(book: &[u8], out: &mut [u8]) -> usize
    ensures { PlanLine v2 book.now out.old out.new result }
{
    vishalneq::vishalneq_plan_line2(book, out)
}

// The lines of a version 1 book's panel: written at the start of a buffer of at least 16,384 bytes, with their length. A smaller buffer is
// left as it is, and 0 handed back.
#[unsafe(no_mangle)]
pub extern "C" fn vishalneq_panel_lines(book: &[u8], out: &mut [u8]) -> usize
    ensures { Panels v1 book.now out.old out.new result }
{
    vishalneq::vishalneq_panel_lines(book, out)
}

// Those of a version 2 book's panel, in a buffer of at least 262,144 bytes.
#[unsafe(no_mangle)]
pub extern "C" fn vishalneq_panel_lines2(book: &[u8], out: &mut [u8]) -> usize
    ensures { Panels v2 book.now out.old out.new result }
{
    vishalneq::vishalneq_panel_lines2(book, out)
}

// The start pair after the first `prefix` rules of a book of version 1: X, Y and D stand at the start of a buffer of at least three
// numbers, zeros where no pair is allowed, and the count is handed back. A refused book leaves the buffer as it is, and so does a smaller
// buffer; of a refused book 65,536 times its number plus its record is handed back.
#[unsafe(no_mangle)]
pub extern "C" fn vishalneq_start_after(book: &[u8], prefix: usize, out: &mut [i64]) -> usize
    ensures { StartWritten v1 book.now prefix out.old out.new result }
{
    vishalneq::vishalneq_start_after(book, prefix, out)
}

// The start pair of a book of version 2.
#[unsafe(no_mangle)]
pub extern "C" fn vishalneq_start_after2(book: &[u8], prefix: usize, out: &mut [i64]) -> usize
    ensures { StartWritten v2 book.now prefix out.old out.new result }
{
    vishalneq::vishalneq_start_after2(book, prefix, out)
}

// The repacked form of a book of version 1, always version 2, at the start of a buffer, and how many bytes it has. A book that is refused,
// and one whose repacked form has no room, leaves the buffer as it is, and 65,536 times its number plus its record is handed back.
#[unsafe(no_mangle)]
pub extern "C" fn vishalneq_repack(book: &[u8], out: &mut [u8]) -> usize
    ensures { RepackWritten v1 book.now out.old out.new result }
{
    vishalneq::vishalneq_repack(book, out)
}

// The repacked form of a book of version 2.
#[unsafe(no_mangle)]
pub extern "C" fn vishalneq_repack2(book: &[u8], out: &mut [u8]) -> usize
    ensures { RepackWritten v2 book.now out.old out.new result }
{
    vishalneq::vishalneq_repack2(book, out)
}

// All corners of a version 2 book's region, 24 bytes each, at the start of a buffer, and how many they are. What is turned back leaves the
// buffer as it is, and 65,536 times the number plus the record is handed back; of corners that do not fit also how many they are, since
// their record is 0.
#[unsafe(no_mangle)]
pub extern "C" fn vishalneq_corners(book: &[u8], out: &mut [u8]) -> usize
    ensures { CornersWritten book.now out.old out.new result }
{
    vishalneq::vishalneq_corners(book, out)
}

// The answers to a batch's objectives, 32 bytes each, at the start of a buffer, and how many bytes they have. What is turned back leaves
// the buffer as it is, and 65,536 times the number plus the record is handed back.
#[unsafe(no_mangle)]
pub extern "C" fn vishalneq_batch(book: &[u8], objectives: &[u8], out: &mut [u8]) -> usize
    ensures { BatchWritten book.now objectives.now out.old out.new result }
{
    vishalneq::vishalneq_batch(book, objectives, out)
}

// What the checker says of a slip of 14 numbers.
#[unsafe(no_mangle)]
pub extern "C" fn vishalneq_check(book: &[u8], slip: &[i64]) -> usize
    ensures { result ≡ verdict_told (verdict_of (read_of v2 book.now) (slip_of slip.now)) }
{
    vishalneq::vishalneq_check(book, slip)
}

// The planner's slip of a book: its 14 numbers at the start of a run, and 14 handed back. A run that is too short is left as it is, and 0
// handed back. A refused book leaves it as it is too, and 65,536 times its number plus its record is handed back.
#[unsafe(no_mangle)]
pub extern "C" fn vishalneq_slip(book: &[u8], out: &mut [i64]) -> usize
    ensures { SlipWritten book.now out.old out.new result }
{
    vishalneq::vishalneq_slip(book, out)
}

// The line of a site's and a tenant's book, both of version 2: written at the start of a buffer of at least 256 bytes, with its length. A
// smaller buffer is left as it is, and 0 handed back.
#[unsafe(no_mangle)]
pub extern "C" fn vishalneq_joint(site: &[u8], tenant: &[u8], out: &mut [u8]) -> usize
    ensures { JointLine site.now tenant.now out.old out.new result }
{
    vishalneq::vishalneq_joint(site, tenant, out)
}
