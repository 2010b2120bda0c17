// The panel program: one book from standard input, its panel's lines to standard output. It reads one byte more than a book may have, so
// that longer input is seen to be too long.
// A program is its `main`, a few lines that read, call and print: so this one is alike to `panel2`.

#![tactic(auto)]

use records::{Book, Version};
use std::io;

// What was read, as a book of version 1.
fn book<'a>(bytes: &'a [u8]) -> Book<'a> {
    Book {
        version: Version::One,
        bytes,
    }
}

fn main(rt: HostRuntime) -> io::Result<()> {
    let mut input = [0u8; 3073];
    let n = streams::read_full(&mut rt.stdin(), &mut input)?;
    let mut lines = [0u8; 16384];
    let end = planner::panel_lines(&book(&input[..n]), &mut lines);
    rt.write_all(&lines[..end])
}
