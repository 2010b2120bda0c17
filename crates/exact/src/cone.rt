// The rays along which no constraint is left: all between two, or none. A new constraint takes away one side of them. Here the numbers are
// any, and wrap; the two types are of numbers within document 01's bounds, of which `within` has the same functions.
ghost use Rattle.std.specs.Prelude.{◌≡◌};
ghost use Rattle.exact.specs.Wrapped.{wrapped_narrow, wrapped_gaining};
ghost use Rattle.exact.specs.Sizes.{Narrowing, Gaining};

use crate::{backward, direction, gains, stays};
use lp::{Constraint, Functional, Ray};

// A constraint and the rays of a cone, within document 01's bounds.
#[derive(Clone, Copy)]
pub struct Narrowing {
    pub h: Constraint,
    pub cone: Option<(Ray, Ray)>,
    pub ghost small: { ∥ Narrowing h cone ∥₁ },
}

// An objective and the rays of a cone.
#[derive(Clone, Copy)]
pub struct Climbing {
    pub f: Functional,
    pub cone: Option<(Ray, Ray)>,
    pub ghost small: { ∥ Gaining f cone ∥₁ },
}

// What a constraint leaves of the rays of a cone.
pub fn narrow(h: Constraint, cone: Option<(Ray, Ray)>) -> Option<(Ray, Ray)>
    ensures { result ≡ wrapped_narrow h cone }
{
    let (lo, hi) = cone?;
    if stays(h, lo) {
        if stays(h, hi) {
            Some((lo, hi))
        } else {
            Some((lo, direction(h)))
        }
    } else if stays(h, hi) {
        Some((backward(h), hi))
    } else {
        None
    }
}

// A ray of the cone along which the objective gains: the flatter of the two if it does.
pub fn gaining(f: Functional, cone: Option<(Ray, Ray)>) -> Option<Ray>
    ensures { result ≡ wrapped_gaining f cone }
{
    let (lo, hi) = cone?;
    if gains(f, lo) {
        Some(lo)
    } else if gains(f, hi) {
        Some(hi)
    } else {
        None
    }
}
