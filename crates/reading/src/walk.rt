// The walk along the links: each is judged, and what it leads to is kept in order.
ghost use Rattle.book.specs.Promises.{ReadInto};
ghost use Rattle.book.specs.Judging.{Headed};

use crate::put::{put_entry, put_record};
use answers::Refusal;
use book::Head;
use judging::judge;
use records::{Book, Heading};
use rules::constraint;

// The chain from the header's link on. A record that is turned back stops the walk there. Each turn goes to where the last rule's link
// leads, so that this loop counts nothing and no `for` could go over it. It stands in `read`'s body once for each version, and so does
// what judges a link, down to `decoding::inspect`: out of line they would look at the version anew for each record.
#[inline(always)]
pub fn walk(
    book: &Book,
    heading: Heading,
    indices: &mut [u16],
    rules: &mut [i64],
) -> Result<Head, Refusal>
    requires { Headed book.now.layout book.now.bytes heading }
    ensures { ReadInto book.now.layout book.now.bytes indices.old rules.old
        result indices.new rules.new }
{
    let mut labels = [0u64; 1024];
    let mut n: usize = 0;
    let mut at: u16 = 0;
    let mut link = heading.link;
    while link != 0 {
        let sound = judge(book, &mut labels, heading.count, n, at, link)?;
        put_record(&mut *indices, n, link);
        put_entry(&mut *rules, n, constraint(sound.rule));
        n += 1;
        at = link;
        link = sound.next;
    }
    let terms = heading.terms;
    Ok(Head { terms, n })
}
