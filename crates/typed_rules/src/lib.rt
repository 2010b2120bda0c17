// A rule typed as text, read by the language of document 02, #103. Every function that can be called from outside is total: it takes
// any bytes and answers.

#![tactic(auto)]

mod readers;
mod tokens;

ghost use Rattle.std.specs.Prelude.{◌≡◌};
ghost use Rattle.language.specs.Parser.{answer};

use forms::{Flaw, Typed, Value};
use readers::read_text;

// What a reader found: a value and what is left of the text behind it, or nothing of the language.
type Step<'a> = Option<(Value, &'a [u8])>;

// What a text reads as.
pub fn read_rule(text: &[u8]) -> Typed
    ensures { result ≡ answer text.now }
{
    if text.len() <= 120 {
        read_text(text)
    } else {
        Err(Flaw::Text)
    }
}
