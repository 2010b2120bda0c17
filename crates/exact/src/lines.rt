// Values whose numbers are within document 01's bounds, as each says of itself: so that no product and no sum of them leaves 64 bits.
ghost use Rattle.exact.specs.Sizes.{Distance, Lines, Meeting, Risen, Gained, Earned};
ghost use Rattle.lp.specs.Range.{SmallConstraint};

use lp::{Constraint, Functional, Point, Ray};

// A constraint whose line is walked.
#[derive(Clone, Copy)]
pub struct Line {
    pub h: Constraint,
    pub ghost small: { SmallConstraint h },
}

// Two lines.
#[derive(Clone, Copy)]
pub struct Crossing {
    pub r: Constraint,
    pub s: Constraint,
    pub ghost small: { Lines r s },
}

// A constraint, and the two lines whose corner it may keep.
#[derive(Clone, Copy)]
pub struct Corner {
    pub h: Constraint,
    pub p: Constraint,
    pub q: Constraint,
    pub ghost small: { Meeting h p q },
}

// A constraint and a point.
#[derive(Clone, Copy)]
pub struct Seen {
    pub r: Constraint,
    pub v: Point,
    pub ghost small: { Distance r.a v.x r.b v.y r.c v.d },
}

// A constraint and a ray.
#[derive(Clone, Copy)]
pub struct Rising {
    pub r: Constraint,
    pub d: Ray,
    pub ghost small: { Risen r d },
}

// An objective and a ray.
#[derive(Clone, Copy)]
pub struct Gaining {
    pub f: Functional,
    pub d: Ray,
    pub ghost small: { Gained f d },
}

// An objective and a point.
#[derive(Clone, Copy)]
pub struct Earning {
    pub f: Functional,
    pub v: Point,
    pub ghost small: { Earned f v },
}
