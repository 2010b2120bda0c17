// A session, in which rules are tried and taken back: its types, what each step does to it and the laws of that (specs/, proofs/). Its state
// goes by value, an array of 64 rules, a count, and the objective with the floors. The code is crate `steps`.

#![tactic(auto)]

use answers::{Plan, Refusal};
use lp::Terms;
use records::Rule;

// The rules held stand first, in their order; every other place is blank.
#[derive(Clone, Copy)]
pub struct Session {
    pub rules: [Rule; 64],
    pub n: usize,
    pub terms: Terms,
}

// What a step hands back: the session, the refusal, if something is turned back, and the plan of the session's rules, which a refused step
// has too.
#[derive(Clone, Copy)]
pub struct Step {
    pub session: Session,
    pub refusal: Option<Refusal>,
    pub plan: Plan,
}
