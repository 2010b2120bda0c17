// The line that shows the answer to a book, as definitions and laws (specs/, proofs/): what is printed, not how. It rests on the parts of a
// line (crate `text`); the answer itself is `answers`'s, and crate `answer_line` writes the line.

#![tactic(auto)]

// How a witness names the rule in a record: by the record's index, or, of two books joined, by the book's letter with the index behind it.
// It is a value, matched once, where a rule is written: as a type it would be a parameter, with a bound, of each function and definition of
// the line, and the callers would choose it all the same.
#[derive(Clone, Copy)]
pub enum Naming {
    OneBook,
    TwoBooks,
}
