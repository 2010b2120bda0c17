// The repacked form of a book: its rules in chain order, always in version 2's layout. It takes any bytes, as a book of either version,
// and any output.

#![tactic(auto)]

mod pack;

ghost use Rattle.std.specs.Prelude.{◌≡◌, ◌≤◌, length};
ghost use Rattle.book.specs.Runs.{Few};
ghost use Rattle.repacker.specs.Promises.{Repacks};

use answers::{Cause, Refusal};
use pack::{next_of, put_rules};
use packing::header_bytes;
use reading::read;
use records::Book;

// The repacked form of a book, into the output, with a run for its records lent: how many bytes it has, or the refusal. Each caller has it in
// its own body, where the book's version is known: out of line it would look at the version anew for each record, twice.
#[inline(always)]
fn repack_in(book: &Book, out: &mut [u8], indices: &mut [u16]) -> Result<usize, Refusal>
    requires few { Few book.now.layout book.now.bytes (length indices.old) }
    requires most { length indices.old ≤ 4095 }
    ensures { Repacks book.now.layout book.now.bytes out.old result out.new }
{
    let head = read(book, &mut *indices, &mut [])?;
    let filled = 14 * (head.n + 1);
    if out.len() < filled {
        return Err(Refusal::of(Cause::Room, 0));
    }
    let rules = head.n as u16;
    out[..14].copy_from_slice(&header_bytes(book, next_of(0, rules), rules));
    put_rules(book, &mut *out, &*indices, rules);
    Ok(filled)
}

// Of a book with at most RULES rules. Each size is an instance of its own: clearing the longest run takes several times what a short
// book takes.
#[inline(always)]
fn repack_sized<const RULES: usize>(book: &Book, out: &mut [u8]) -> Result<usize, Refusal>
    requires few { Few book.now.layout book.now.bytes RULES }
    requires most { RULES ≤ 4095 }
    ensures { Repacks book.now.layout book.now.bytes out.old result out.new }
{
    let mut indices = [0u16; RULES];
    repack_in(book, out, &mut indices)
}

// The repacked form of a book of either version, always version 2, into the output, and how many bytes it has. A book that is turned back,
// or an output without room, leaves the output as it was. No book of 3,584 bytes, 256 records of 14, has more than 255 rules, whichever its
// version.
#[inline(always)]
pub fn repack(book: &Book, out: &mut [u8]) -> Result<usize, Refusal>
    ensures { Repacks book.now.layout book.now.bytes out.old result out.new }
{
    if book.bytes.len() <= 3584 {
        repack_sized::<255>(book, out)
    } else {
        repack_sized::<4095>(book, out)
    }
}
