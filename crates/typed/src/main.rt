// The typed program: one text from standard input, its line to standard output. It reads so many bytes that longer input is seen to be
// too long, with a line feed at the end or without.

#![tactic(auto)]

use std::io;

fn main(rt: HostRuntime) -> io::Result<()> {
    let mut input = [0u8; 122];
    let n = streams::read_full(&mut rt.stdin(), &mut input)?;
    let mut line = [0u8; 96];
    let end = typed_line::typed_line(&input[..n], &mut line);
    rt.write_all(&line[..end])
}
