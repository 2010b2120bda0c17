// A batch for programs in other languages: many objectives for one book of version 2.
ghost use Rattle.vishalneq.specs.Batch.{BatchWritten};

use handed::told;

// The answers to a batch's objectives, 32 bytes each, at the start of a buffer, and how many bytes they have. What is turned back leaves
// the buffer as it is, and 65,536 times the number plus the record is handed back.
pub fn vishalneq_batch(book: &[u8], objectives: &[u8], out: &mut [u8]) -> usize
    ensures { BatchWritten book.now objectives.now out.old out.new result }
{
    let answer = batching::batch(book, objectives, out);
    told(answer)
}
