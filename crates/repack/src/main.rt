// The repacker of version 1 books: one book from standard input, its repacked form, which is a book of version 2, to standard output. Of a
// book that is refused the line goes to standard error, and nothing to standard output. It reads one byte more than a book may have, so
// that longer input is seen to be too long; the output has room for every repacked form, so that 11 is never said.
// A program is its `main`, a few lines that read, call and print: so this one is alike to `repack2`.

#![tactic(auto)]

use records::{Book, Version};
use std::io;

// What was read, as a book of version 1.
fn book<'a>(bytes: &'a [u8]) -> Book<'a> {
    Book {
        version: Version::One,
        bytes,
    }
}

fn main(rt: HostRuntime) -> io::Result<()> {
    let mut input = [0u8; 3073];
    let n = streams::read_full(&mut rt.stdin(), &mut input)?;
    let mut out = [0u8; 3584];
    match repacker::repack(&book(&input[..n]), &mut out) {
        Ok(filled) => rt.write_all(&out[..filled]),
        Err(refusal) => {
            let mut line = [0u8; 256];
            let end = answer_line::write_line(Err(refusal), &mut line);
            rt.stderr().write_all(&line[..end])
        }
    }
}
