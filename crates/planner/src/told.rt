// What is told of a book: its answer, its panel and its view, all from one run. Runs of numbers are local to a function for each size of
// book, since clearing the longest takes several times what a short book takes, and so that a short book takes little of the stack.
ghost use Rattle.std.specs.Prelude.{◌≡◌, ◌+◌, ◌*◌, ◌≤◌, length, take};
ghost use Rattle.showing.specs.Showing.{Shows};
ghost use Rattle.planner.specs.Running.{answer_of, view_from, count_in, outcome_in, Roomy, Tells};
ghost use Rattle.book.specs.Runs.{Few};

use crate::StartView;
use answers::{Answer, Refusal};
use records::Book;
use running::{Findings, run};
use showing::show;

// The answer; how many bytes the panel has, if there was room for one; and the view.
#[derive(Clone, Copy)]
pub struct Told {
    pub answer: Answer,
    pub count: usize,
    pub view: Result<StartView, Refusal>,
}

// The answer of what a run found.
fn answered(found: Result<Findings, Refusal>, records: &[u16]) -> Answer
    ensures { result ≡ answer_of found records.now }
{
    let found = found?;
    Ok(plans::plan_of(found.solution, records))
}

// The view of what a run found.
fn viewed(found: Result<Findings, Refusal>) -> Result<StartView, Refusal>
    ensures { result ≡ view_from found }
{
    let found = found?;
    let solution = found.solution;
    Ok(StartView {
        start: solution.start,
        restarts: solution.restarts,
    })
}

// The panel of what a run found, with at least as many records as the chain has, and how many bytes it has.
fn panelled(book: &Book, found: Result<Findings, Refusal>, records: &[u16], out: &mut [u8]) -> usize
    requires { count_in found ≤ length records.now }
    ensures { Shows book.now.layout book.now.bytes (outcome_in found) (take (count_in found) records.now) out.old out.new result }
{
    match found {
        Err(refusal) => show(book, Err(refusal), &records[..0], out),
        Ok(found) => show(book, Ok(found.solution.outcome), &records[..found.n], out),
    }
}

// What is told of a book whose runs are lent. The panel is worked out where it has room: who wants none lends an empty buffer.
fn tell_in(
    book: &Book,
    prefix: usize,
    out: &mut [u8],
    records: &mut [u16],
    entries: &mut [i64],
) -> Told
    requires { Roomy book.now.layout book.now.bytes records.old entries.old }
    ensures { Tells book.now.layout book.now.bytes prefix out.old result out.new }
{
    let found = run(book, prefix, &mut *records, entries);
    Told {
        answer: answered(found, records),
        count: panelled(book, found, records, out),
        view: viewed(found),
    }
}

// Of a book with at most RULES rules. Each size is an instance of its own.
fn tell_sized<const RULES: usize, const NUMBERS: usize>(
    book: &Book,
    prefix: usize,
    out: &mut [u8],
) -> Told
    requires few { Few book.now.layout book.now.bytes RULES }
    requires most { RULES ≤ 4095 }
    requires numbers { NUMBERS ≡ 3 * (RULES + 2) }
    ensures { Tells book.now.layout book.now.bytes prefix out.old result out.new }
{
    let mut records = [0u16; RULES];
    let mut entries = [0i64; NUMBERS];
    tell_in(book, prefix, out, &mut records, &mut entries)
}

// Of one with 255 at most.
pub fn tell_few(book: &Book, prefix: usize, out: &mut [u8]) -> Told
    requires { Few book.now.layout book.now.bytes 255 }
    ensures { Tells book.now.layout book.now.bytes prefix out.old result out.new }
{
    if book.bytes.len() <= 31 * book.width() {
        tell_sized::<30, 96>(book, prefix, out)
    } else {
        tell_sized::<255, 771>(book, prefix, out)
    }
}

// What is told of any bytes. It has the long runs in its frame, and takes as long to lay that out as a short book takes to be planned: so
// who knows that a book is short goes to `tell_few`. Each of its three callers has it in its own body: out of line it would copy what is told
// by the C library's memcpy, and an archive for C needs nothing of that but memset.
#[inline(always)]
pub fn tell(book: &Book, prefix: usize, out: &mut [u8]) -> Told
    ensures { Tells book.now.layout book.now.bytes prefix out.old result out.new }
{
    if book.bytes.len() <= 256 * book.width() {
        tell_few(book, prefix, out)
    } else {
        tell_sized::<4095, 12291>(book, prefix, out)
    }
}
