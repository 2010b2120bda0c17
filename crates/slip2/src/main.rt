// The slip program: one book of version 2 from standard input, the line of its plan's slip to standard output, or that of its refusal. It
// reads one byte more than a book may have, so that longer input is seen to be too long.

#![tactic(auto)]

use std::io;

fn main(rt: HostRuntime) -> io::Result<()> {
    let mut input = [0u8; 57345];
    let n = streams::read_full(&mut rt.stdin(), &mut input)?;
    let mut line = [0u8; 256];
    let end = slip_line::write_slip(slips::slip_of(&input[..n]), &mut line);
    rt.write_all(&line[..end])
}
