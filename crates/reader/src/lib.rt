// A reader of a book: it holds on to the lent book while it goes from record to record. Its functions are few, and each takes the reader
// apart and calls a function of the book and the index.

#![tactic(auto)]

ghost use Rattle.std.specs.Prelude.{◌≡◌};
ghost use Rattle.records.specs.Record.{record_at, decoded_of};

use answers::Cause;
use decoding::inspect;
use records::{Book, Sound};

// A book that is held on to while it is walked from record to record, and the record that the walk has come to. What is found there is
// worked out by a function of the book and the index.
#[derive(Drop)]
pub struct Reader<'a> {
    pub book: &'a Book<'a>,
    pub at: u16,
}

// A reader at a record.
pub fn stand<'a>(book: &'a Book<'a>, at: u16) -> Reader<'a>
    ensures { (result.book ≡ book.entry) × (result.at ≡ at) }
{
    Reader { book, at }
}

// A reader moved to another record, so that a caller can hold one along a chain.
pub fn moved<'a>(r: Reader<'a>, at: u16) -> Reader<'a>
    ensures { (result.book ≡ r.entry.book) × (result.at ≡ at) }
{
    Reader { book: r.book, at }
}

// What the record holds that a reader stands at.
#[inline(always)]
pub fn current<'a>(r: Reader<'a>) -> Result<Sound, Cause>
    ensures { result ≡ decoded_of r.entry.book.now.layout (record_at r.entry.book.now.layout r.entry.book.now.bytes r.entry.at) }
{
    inspect(r.book, r.at)
}

// The record at an index, through a reader: for callers that hold none.
#[inline(always)]
pub fn visit(book: &Book, at: u16) -> Result<Sound, Cause>
    ensures { result ≡ decoded_of book.now.layout (record_at book.now.layout book.now.bytes at) }
{
    current(stand(book, at))
}
