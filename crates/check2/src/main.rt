// The check program: ./check BOOK < SLIP. The file that its argument names is read as a book of version 2, standard input as the line of a
// slip, and what the checker says goes to standard output: yes, no or the line of a refusal. It reads one byte more than a book and a line
// may have, so that what is longer is seen to be too long and gets its refusal. A file that is missing or cannot be read gets a line on
// standard error, and nothing is printed.

#![tactic(auto)]

use check_line::check_line;
use files::load;
use std::io;
use verdict_line::write_verdict;

// What the checker says of a book and a line.
fn answer(rt: &HostRuntime, book: &[u8], text: &[u8]) -> io::Result<()> {
    let mut line = [0u8; 64];
    let end = write_verdict(check_line(book, text), &mut line);
    rt.write_all(&line[..end])
}

fn main(rt: HostRuntime) -> io::Result<()> {
    let mut book = [0u8; 57345];
    let mut text = [0u8; 237];
    let Some(n) = load(&rt, 1, b"check BOOK", &mut book) else {
        return Ok(());
    };
    let m = streams::read_full(&mut rt.stdin(), &mut text)?;
    answer(&rt, &book[..n], &text[..m])
}
