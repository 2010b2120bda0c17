// The boundary of the region that a system allows, as a ring of constraints, and the theorems about it. The crates that compute it keep a
// ring in a run of indices; of code there is only where it stands there.

#![tactic(auto)]

// Where a ring stands in its run: n edges from place lo on.
#[derive(Clone, Copy)]
pub struct Arc {
    pub lo: usize,
    pub n: usize,
}
