// The line of an input: a line feed at its end is not part of the text, which is read as a rule or refused.

#![tactic(auto)]

ghost use Rattle.std.specs.Prelude.{◌≡◌};
ghost use Rattle.language.specs.Parser.{answer};
ghost use Rattle.typed_line.specs.Feed.{without_feed};
ghost use Rattle.typed_line.specs.Typed.{TypedWritten};

use typed_rules::read_rule;
use written::write_typed;

mod written;

// The text of an input.
#[tactic(auto, unfolding(crate::specs::Feed::without_feed))]
fn text_of(input: &[u8]) -> &[u8]
    ensures { result.now ≡ without_feed input.now }
{
    match input {
        [text @ .., b'\n'] => text,
        _ => input,
    }
}

// The line of an input, at the start of a buffer of at least 96 bytes, and its length. A smaller buffer is left as it is, and 0 handed
// back.
pub fn typed_line(input: &[u8], out: &mut [u8]) -> usize
    ensures { TypedWritten (answer (without_feed input.now)) out.old out.new result }
{
    write_typed(read_rule(text_of(input)), out)
}
