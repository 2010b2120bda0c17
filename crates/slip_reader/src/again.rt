// A slip written again, and compared with the text that it was read from.
ghost use Rattle.slip_text.specs.Text.{slip_text};
ghost use Rattle.slip_reader.specs.Asked.{Judges, JudgesLine};

use slip::Slip;
use slip_text::append_slip;
use text::Line;

// Whether a text is what was written, with or without a line feed.
fn is_either(written: &[u8], text: &[u8]) -> bool
    ensures { Judges written.now text.now result }
{
    if text == written {
        return true;
    }
    match text.strip_suffix(b"\n") {
        Some(front) => front == written,
        None => false,
    }
}

// Whether a text is the slip's, with or without a line feed.
fn is_text(s: Slip, text: &[u8]) -> bool
    ensures { Judges (slip_text s) text.now result }
{
    let mut out = [0u8; 235];
    let mut line = Line {
        out: &mut out,
        at: 0,
    };
    append_slip(s, &mut line);
    let end = line.at;
    is_either(&out[..end], text)
}

// Whether a text is the line of the slip: it names three entries at most.
pub fn is_line(s: Slip, text: &[u8]) -> bool
    ensures { JudgesLine s text.now result }
{
    (0..=3).contains(&s.weights.count) && is_text(s, text)
}
