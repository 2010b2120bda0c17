// A slip read back from its line. The reader takes any bytes for a line and makes a slip of them; then the slip is written
// again, and only bytes that are its text, with or without a line feed, were a line.

#![tactic(auto)]

mod again;
mod fields;
mod parts;

ghost use Rattle.slip_reader.specs.Reading.{Reads};

use slip::Slip;

// The slip that a text says, if it is the line of one.
pub fn read_slip(text: &[u8]) -> Option<Slip>
    ensures { Reads text.now result }
{
    let s = parts::parsed(text);
    if again::is_line(s, text) {
        Some(s)
    } else {
        None
    }
}
