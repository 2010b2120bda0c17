// All corners of a book's region (request 110): the book is read and checked a single time, its rules enter the region's boundary in the
// order of their angles, and the boundary's corners are put in order and written without repeats. It takes any bytes as a book of version
// 2, and any output.

#![tactic(auto)]

mod classes;

ghost use Rattle.outline.specs.Outline.{Outlines};

use outline::Unlisted;

// The corners, 24 bytes each, at the start of the output: X, Y, D, smaller x first and then smaller y; and how many they are. What is
// turned back leaves the output as it was; a list that does not fit is turned back with its count.
pub fn corners(book: &[u8], out: &mut [u8]) -> Result<usize, Unlisted>
    ensures { Outlines book.now out.old result out.new }
{
    if book.len() <= 434 {
        classes::corners_sized::<30, 99, 68>(book, out)
    } else if book.len() <= 3584 {
        classes::corners_sized::<255, 774, 518>(book, out)
    } else {
        classes::corners_sized::<4095, 12294, 8198>(book, out)
    }
}
