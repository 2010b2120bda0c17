// What a book's header says: the terms that its chain is planned under, the count and the first link; and the first of the causes 1 to 5, if
// one applies.

#![tactic(auto)]

mod header;

ghost use Rattle.std.specs.Prelude.{◌≡◌};
ghost use Rattle.records.specs.Layout.{layout_of};
ghost use Rattle.records.specs.Header.{heading_of};
ghost use Rattle.headings.specs.Tests.{heading_in};

use header::{cause_in, floors_in};
use lp::{Functional, Terms};
use records::fields::Fields;
use records::{BadHeading, Book, Heading, Version};
use signed::signed16;

// What a header of these fields says.
fn said(version: Version, f: Fields) -> Heading
    ensures { result ≡ heading_in (layout_of version) f }
{
    let objective = Functional {
        p: i64::from(signed16(f.a)),
        q: i64::from(signed16(f.b)),
    };
    let floors = floors_in(version, f.c);
    Heading {
        terms: Terms { objective, floors },
        count: f.label,
        link: f.link,
    }
}

// What a book's header says; of one that is turned back too, beside the first cause that does so.
pub fn heading_of(book: &Book) -> Result<Heading, BadHeading>
    ensures { result ≡ heading_of book.now.layout book.now.bytes }
{
    let f = book.fields_at(0);
    let heading = said(book.version, f);
    match cause_in(book, f) {
        Some(cause) => Err(BadHeading { cause, heading }),
        None => Ok(heading),
    }
}
