// The lines of the session program: any bytes are read as a step with its numbers or as no step.

#![tactic(auto)]

mod numbers;
mod steps;

ghost use Rattle.std.specs.Prelude.{◌≡◌};
ghost use Rattle.session_lines.specs.Lines.{line_in};

use answers::Refusal;
use records::Rule;
use steps::{added, started, typed};

// An objective and floors.
#[derive(Clone, Copy)]
pub struct Beginning {
    pub p: i16,
    pub q: i16,
    pub lx: i16,
    pub ly: i16,
}

// The step that a line asks for: a session anew, a rule more, none since its text is turned back, or a rule less.
#[derive(Clone, Copy)]
pub enum Asked {
    Begin(Beginning),
    Add(Rule),
    Turn(Refusal),
    Back,
}

// The step that a text asks for, if it asks for one.
pub fn read_line(text: &[u8]) -> Option<Asked>
    ensures { result ≡ line_in text.now }
{
    if let Some(rest) = text.strip_prefix(b"start") {
        started(rest)
    } else if let Some(rest) = text.strip_prefix(b"add") {
        typed(rest)
    } else if let Some(rest) = text.strip_prefix(b"rule") {
        added(rest)
    } else if text == b"back".as_slice() {
        Some(Asked::Back)
    } else {
        None
    }
}
