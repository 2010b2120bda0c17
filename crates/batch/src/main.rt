// The batch program: ./batch BOOK < OBJECTIVES. The file that its argument names is read as a book of version 2, standard input as up to 32
// objectives of 4 bytes, and each answer goes to standard output as a line, in the objectives' order. It reads one byte more than a book
// and objectives may have, so that what is longer is seen to be too long and gets its refusal. A file that is missing or cannot be read
// gets a line on standard error, and nothing is printed. Program corners looks much like it: a program is its `main`, a few lines that
// read, call and print.

#![tactic(auto)]

use files::load;
use std::io;
use text::Line;

// The line of one answer.
fn show(rt: &HostRuntime, answer: &[u8]) -> io::Result<()> {
    let mut out = [0u8; 80];
    let mut line = Line {
        out: &mut out,
        at: 0,
    };
    batch_line::append_answer(answer, &mut line);
    let end = line.at;
    rt.write_all(&out[..end])
}

// The lines of all answers, 32 bytes each.
fn show_all(rt: &HostRuntime, answers: &[u8]) -> io::Result<()> {
    for answer in answers.chunks_exact(32) {
        show(rt, answer)?;
    }
    Ok(())
}

// What a batch comes to: its refusal's line, or its answers' lines.
fn answer(rt: &HostRuntime, book: &[u8], objectives: &[u8]) -> io::Result<()> {
    let mut out = [0u8; 1024];
    match batching::batch(book, objectives, &mut out) {
        Ok(filled) => show_all(rt, &out[..filled]),
        Err(refusal) => {
            let mut line = [0u8; 256];
            let end = answer_line::write_line(Err(refusal), &mut line);
            rt.write_all(&line[..end])
        }
    }
}

fn main(rt: HostRuntime) -> io::Result<()> {
    let mut book = [0u8; 57345];
    let mut objectives = [0u8; 129];
    let Some(n) = load(&rt, 1, b"batch BOOK", &mut book) else {
        return Ok(());
    };
    let m = streams::read_full(&mut rt.stdin(), &mut objectives)?;
    answer(&rt, &book[..n], &objectives[..m])
}
