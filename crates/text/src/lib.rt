// A line put together in a lent buffer, a part after another. Each function writes where the line ends; a line whose buffer has no room
// for the part stays as it is. Crate `numerals` puts numbers so, and other crates make lines of these parts. The definitions of all parts
// of a line stand here.

#![tactic(auto)]

ghost use Rattle.std.specs.Prelude.{◌≡◌, ◌+◌, ltb, length};
ghost use Rattle.text.specs.Line.{Adds};

// A lent buffer, and the place in it where the text goes on.
#[derive(Drop)]
pub struct Line<'a> {
    pub out: &'a mut [u8],
    pub at: usize,
}

impl<'a> Line<'a> {
    // Whether the buffer has no room for so many bytes from the place on. The place may be any, so that it is not added to.
    pub fn lacks_room(&self, room: usize) -> bool
        ensures { result ≡ ltb (length self.now.out.now) (self.now.at + room) }
    {
        let size = self.out.len();
        let at = self.at;
        size < at || size - at < room
    }
}

// A word, copied in.
pub fn append_word(word: &[u8], line: &mut Line)
    ensures { Adds line.old word.now (length word.now) line.new }
{
    if line.lacks_room(word.len()) {
        return;
    }
    let end = line.at + word.len();
    line.out[line.at..end].copy_from_slice(word);
    line.at = end;
}
