// The corners program: one book of version 2 from standard input, a line X Y D for each corner of its region to standard output, smaller x
// first and then smaller y. An impossible book gets no line, a refused one its refusal's. It reads one byte more than a book may have, so
// that longer input is seen to be too long; the output has room for the corners of every book, so that 11 is never said. Program batch
// looks much like it: a program is its `main`, a few lines that read, call and print.

#![tactic(auto)]

use std::io;
use text::Line;

// The line of one corner.
fn show(rt: &HostRuntime, corner: &[u8]) -> io::Result<()> {
    let mut out = [0u8; 64];
    let mut line = Line {
        out: &mut out,
        at: 0,
    };
    corner_line::append_corner(batch_line::corner_of(corner), &mut line);
    let end = line.at;
    rt.write_all(&out[..end])
}

// The lines of all corners, 24 bytes each.
fn show_all(rt: &HostRuntime, corners: &[u8]) -> io::Result<()> {
    for corner in corners.chunks_exact(24) {
        show(rt, corner)?;
    }
    Ok(())
}

fn main(rt: HostRuntime) -> io::Result<()> {
    let mut input = [0u8; 57345];
    let n = streams::read_full(&mut rt.stdin(), &mut input)?;
    let mut out = [0u8; 98328];
    match cornering::corners(&input[..n], &mut out) {
        Ok(count) => show_all(&rt, &out[..24 * count]),
        Err(unlisted) => {
            let mut line = [0u8; 256];
            let end = answer_line::write_line(Err(unlisted.refusal), &mut line);
            rt.write_all(&line[..end])
        }
    }
}
