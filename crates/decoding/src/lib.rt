// The rule records of a book, of either version of the format: a record's rule, and what turns it back. A byte that is not there reads as
// zero.

#![tactic(auto)]

mod decode;

ghost use Rattle.std.specs.Prelude.{◌≡◌};
ghost use Rattle.records.specs.Record.{record_at, rule_of, decoded_of};

use answers::Cause;
use decode::{judged, rule_in};
use records::{Book, Rule, Sound};

// The rule of a record, whether the record is on the chain or not.
pub fn rule_at(book: &Book, index: u16) -> Rule
    ensures { result ≡ rule_of book.now.layout (record_at book.now.layout book.now.bytes index) }
{
    rule_in(book.fields_at(index))
}

// What the record at an index comes to. A record that is not there goes a way of its own, which the compiler leaves out of line: reading
// a book goes through here once a rule.
#[inline(always)]
pub fn inspect(book: &Book, index: u16) -> Result<Sound, Cause>
    ensures { result ≡ decoded_of book.now.layout (record_at book.now.layout book.now.bytes index) }
{
    if book.is_inside(index) {
        judged(book.fields_at(index))
    } else {
        judged(book.fields_past(index))
    }
}
