// A rule book as a whole: what it reads as, along its chain, and what turns it back, as definitions and laws (specs/, proofs/), with the types
// that code and definitions share. The code is crates `judging`, one link of the chain, and `reading`, the chain.

#![tactic(auto)]

use lp::Terms;

// What an accepted book reads as, but for its chain: its terms, and the number of its rules.
#[derive(Clone, Copy)]
pub struct Head {
    pub terms: Terms,
    pub n: usize,
}
