// A rule book read along its chain: its terms, its records and its rules as they are planned, or what turns it back. Every function that
// can be called from outside is total: it takes any bytes and answers.

#![tactic(auto)]

mod put;
mod walk;

ghost use Rattle.book.specs.Promises.{ReadInto};

use answers::Refusal;
use book::Head;
use headings::heading_of;
use records::{Book, Version};

// What a book reads as. The records of the chain and its rules as they are planned go into two runs, as far as the walk comes and there is
// room. The version is looked at once, here, and each walk below is of a book whose version is a constant: the walk is compiled for each
// version, so that no record of a chain asks for it again.
pub fn read(book: &Book, records: &mut [u16], rules: &mut [i64]) -> Result<Head, Refusal>
    ensures { ReadInto book.now.layout book.now.bytes records.old rules.old
        result records.new rules.new }
{
    match heading_of(book) {
        Ok(heading) => {
            let bytes = book.bytes;
            match book.version {
                Version::One => {
                    let version = Version::One;
                    walk::walk(&Book { version, bytes }, heading, records, rules)
                }
                Version::Two => {
                    let version = Version::Two;
                    walk::walk(&Book { version, bytes }, heading, records, rules)
                }
            }
        }
        Err(bad) => Err(Refusal::of(bad.cause, 0)),
    }
}
