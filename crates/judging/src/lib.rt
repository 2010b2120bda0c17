// One link of a book's chain judged: a sound rule that is new on the chain, or what turns the book back.

#![tactic(auto)]

mod again;
mod tables;

ghost use Rattle.book.specs.Judging.{Judges};

use again::again;
use answers::{Cause, Refusal};
use reader::visit;
use records::{Book, Sound};
use tables::{note, noted};

// A link of the chain judged, which record `at` holds, by the labels met on the n records passed before it. A record that was passed was
// sound then, and its label is noted, so a link back to it is found by its label. The label of a sound rule is noted; else the table stays
// as it is. A link of 0 ends the chain and is not for judging: it would be taken for one to the header.
#[inline(always)]
pub fn judge(
    book: &Book,
    labels: &mut [u64],
    count: u16,
    n: usize,
    at: u16,
    link: u16,
) -> Result<Sound, Refusal>
    ensures { Judges book.now.layout book.now.bytes labels.old count n at link result labels.new }
{
    if link > count {
        return Err(Refusal::of(Cause::Link, at));
    }
    let sound = match visit(book, link) {
        Ok(sound) => sound,
        Err(cause) => return Err(Refusal::of(cause, link)),
    };
    let label = sound.rule.label;
    if noted(&*labels, label) {
        return Err(again(book, n, at, link));
    }
    note(labels, label);
    Ok(sound)
}
