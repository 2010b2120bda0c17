// Spaces in a text, before what is next.
ghost use Rattle.std.specs.Prelude.{◌≡◌};
ghost use Rattle.language.specs.Parser.{skip as skip_of};

// What is left of a text behind the spaces that it begins with.
#[tactic(auto, unfolding(language::specs::Parser::skip))]
pub fn skip(text: &[u8]) -> &[u8]
    ensures { result.now ≡ skip_of text.now }
{
    let mut rest = text;
    while let [b' ', more @ ..] = rest {
        rest = more;
    }
    rest
}
