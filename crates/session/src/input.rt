// Standard input, line by line.
ghost use Rattle.std.specs.Prelude.{length, IfOk};
ghost use Rattle.session.specs.Lines.{Within};

use std::io;
use std::io::Read;

// The end of the input; a line longer than the buffer; or how many bytes a line has, without its line feed. Three states in one enum are
// plainer than an Option in an Option or a Result.
#[derive(Clone, Copy)]
pub enum Line {
    Ended,
    Long,
    Text(usize),
}

// One byte of the input, if it has not ended.
fn next_byte(rt: &HostRuntime) -> io::Result<Option<u8>> {
    let mut one = [0u8; 1];
    let n = rt.stdin().read(&mut one)?;
    Ok(one[..n].first().copied())
}

// A line of so many bytes.
fn text(n: usize, line: &[u8]) -> Line
    ensures { Within result (length line.now) }
{
    if n <= line.len() {
        Line::Text(n)
    } else {
        Line::Long
    }
}

// Keeps a byte, if there is room.
fn keep(line: &mut [u8], n: usize, byte: u8) {
    if let Some(place) = line.get_mut(n) {
        *place = byte;
    }
}

// What was read before the input ended: a line, if there was any of it.
fn last(n: usize, line: &[u8]) -> Line
    ensures { Within result (length line.now) }
{
    if n == 0 { Line::Ended } else { text(n, line) }
}

// Reads a line. What goes beyond the buffer is passed over.
pub fn read_line(rt: &HostRuntime, line: &mut [u8]) -> io::Result<Line>
    ensures { IfOk result (λ read. Within read (length line.new)) }
{
    for n in 0..1000000usize {
        match next_byte(rt)? {
            None => return Ok(last(n, &*line)),
            Some(10) => return Ok(text(n, &*line)),
            Some(byte) => keep(&mut *line, n, byte),
        }
    }
    Ok(Line::Long)
}
