// What listing the corners of a book answers where there is no list. The definitions that say what is answered for every book stand in
// specs/, their laws in proofs/.

#![tactic(auto)]

use answers::Refusal;

// Why the corners are not listed, and how many did not fit: with 11 that many, with any other refusal 0.
#[derive(Clone, Copy)]
pub struct Unlisted {
    pub refusal: Refusal,
    pub count: usize,
}
