// Many price lists for one book (request 109): the book is read and checked a single time, the corners of its region are listed once, and
// each objective gets the outcome and the pair that a plan alone would give. It takes any bytes as a book of version 2, any as objectives,
// and any output.

#![tactic(auto)]

mod classes;

ghost use Rattle.batching.specs.Promises.{Batches};

use answers::Refusal;

// The answers to up to 32 objectives, 32 bytes each, at the start of the output, and how many bytes they are. What is turned back leaves
// the output as it was.
pub fn batch(book: &[u8], objectives: &[u8], out: &mut [u8]) -> Result<usize, Refusal>
    ensures { Batches book.now objectives.now out.old result out.new }
{
    if book.len() <= 434 {
        classes::batch_sized::<30, 99, 68>(book, objectives, out)
    } else if book.len() <= 3584 {
        classes::batch_sized::<255, 774, 518>(book, objectives, out)
    } else {
        classes::batch_sized::<4095, 12294, 8198>(book, objectives, out)
    }
}
