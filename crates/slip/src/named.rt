// A slip's slots looked up.
use lp::Constraint;

// A slot looked up: whether it is in range, and the rule and the weight that it adds. One that does not count, or is out of range, adds
// nothing. In an Option of rule and weight a sum would have to branch once for each slot, and this one does not.
#[derive(Clone, Copy)]
pub struct Slot {
    pub sound: bool,
    pub rule: Constraint,
    pub weight: i64,
}

// The three slots of a slip.
#[derive(Clone, Copy)]
pub struct Slots {
    pub first: Slot,
    pub second: Slot,
    pub third: Slot,
}
