// The data of a linear program in two variables. Code, definitions and theory share these types; in definitions their fields are
// integers of any size.

#![tactic(auto)]

// A rule of document 01: a·x + b·y is at most c.
#[derive(Clone, Copy)]
pub struct Constraint {
    pub a: i64,
    pub b: i64,
    pub c: i64,
}

// A linear function p·x + q·y: the objective, and each half of a tie.
#[derive(Clone, Copy)]
pub struct Functional {
    pub p: i64,
    pub q: i64,
}

// Two functionals by which ties are broken, in turn; the greater value is preferred.
#[derive(Clone, Copy)]
pub struct Tie {
    pub first: Functional,
    pub second: Functional,
}

// The floors of document 01: x is at least lx, y at least ly.
#[derive(Clone, Copy)]
pub struct Floors {
    pub lx: i64,
    pub ly: i64,
}

// What a chain of rules is planned under: the objective and the floors.
#[derive(Clone, Copy)]
pub struct Terms {
    pub objective: Functional,
    pub floors: Floors,
}

// A pair of document 01: x/d and y/d, with d at least 1.
#[derive(Clone, Copy)]
pub struct Point {
    pub x: i64,
    pub y: i64,
    pub d: i64,
}

// A fraction with its sign: how far a point is from a rule's line.
#[derive(Clone, Copy)]
pub struct Amount {
    pub numerator: i64,
    pub denominator: i64,
}

// A direction of document 01.
#[derive(Clone, Copy)]
pub struct Ray {
    pub dx: i64,
    pub dy: i64,
}

// The three outcomes of document 01: impossible; unlimited, with the start pair and a direction; best.
#[derive(Clone, Copy)]
pub enum Outcome {
    Infeasible,
    Unbounded(Point, Ray),
    Optimal(Point),
}

// A witness of document 01: up to three entries of a system, by index (0 and 1 are the floors), each with its weight. An entry whose weight
// is 0 is left out.
#[derive(Clone, Copy)]
pub struct Certificate {
    pub first: usize,
    pub first_weight: i64,
    pub second: usize,
    pub second_weight: i64,
    pub third: usize,
    pub third_weight: i64,
}
