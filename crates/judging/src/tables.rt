// The labels met: a bit for each, 64 to a word. A table that is too short notes nothing beyond it.
ghost use Rattle.std.specs.Prelude.{◌≡◌, false};
ghost use Rattle.book.specs.Tables.{is_noted, noting};

// Whether a number was noted.
pub fn noted(table: &[u64], number: u16) -> bool
    ensures { result ≡ is_noted table.now number }
{
    let place = (number / 64) as usize;
    let bit = (number % 64) as u64;
    if place < table.len() {
        let word = table[place];
        (word >> bit) % 2 == 1
    } else {
        false
    }
}

// A number is noted.
pub fn note(table: &mut [u64], number: u16)
    requires { is_noted table.old number ≡ false }
    ensures { table.new ≡ noting table.old number }
{
    let place = (number / 64) as usize;
    let bit = (number % 64) as u64;
    if place < table.len() {
        let word = table[place];
        table[place] = word + (1u64 << bit);
    }
}
