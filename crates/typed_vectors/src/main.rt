// Runs typed texts from standard input, one to a line, and writes the line of each.

#![tactic(auto)]

use std::io;

fn show(rt: &HostRuntime, text: &[u8]) -> io::Result<()> {
    let mut line = [0u8; 96];
    let end = typed_line::typed_line(text, &mut line);
    rt.write_all(&line[..end])
}

fn show_all(rt: &HostRuntime, input: &[u8]) -> io::Result<()> {
    for line in input.split_inclusive(|b| *b == b'\n') {
        show(rt, line.strip_suffix(b"\n").unwrap_or(line))?;
    }
    Ok(())
}

fn main(rt: HostRuntime) -> io::Result<()> {
    let mut input = [0u8; 65536];
    let n = streams::read_full(&mut rt.stdin(), &mut input)?;
    show_all(&rt, &input[..n])
}
