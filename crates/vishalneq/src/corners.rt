// The corners of a book's region for programs in other languages: they draw the region from them.
ghost use Rattle.vishalneq.specs.Corners.{CornersWritten};

use handed::told;

// All corners of a version 2 book's region, 24 bytes each, at the start of a buffer, and how many they are. What is turned back leaves the
// buffer as it is, and 65,536 times the number plus the record is handed back; of corners that do not fit also how many they are, since
// their record is 0.
pub fn vishalneq_corners(book: &[u8], out: &mut [u8]) -> usize
    ensures { CornersWritten book.now out.old out.new result }
{
    match cornering::corners(book, out) {
        Ok(count) => count,
        Err(unlisted) => told(Err(unlisted.refusal)) + unlisted.count,
    }
}
