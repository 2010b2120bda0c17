// The order of points, as a set of upward directions: functionals are compared in turn, and the first that does not stay level decides.
ghost use Rattle.std.specs.Prelude.{◌≡◌};
ghost use Rattle.lp.specs.Outcome.{above, tie_order, gain_order};
ghost use Rattle.engine.specs.Sizes.{TieAlong, OrderAlong};

use exact::lines::Gaining;
use exact::within::{gains, loses};
use lp::{Functional, Ray, Tie};

// The functionals that are compared: the objective, then the tie's.
#[derive(Clone, Copy)]
pub struct Order {
    pub objective: Functional,
    pub tie: Tie,
}

// Upward by the tie alone.
pub fn tie_upward(tie: Tie, d: Ray) -> bool
    requires { TieAlong tie d }
    ensures { result ≡ above (tie_order tie) d }
{
    let first = tie.first;
    let second = tie.second;
    if gains(Gaining { f: first, d }) {
        return true;
    }
    if loses(Gaining { f: first, d }) {
        return false;
    }
    gains(Gaining { f: second, d })
}

// Upward by the objective, then by the tie.
pub fn upward(order: &Order, d: Ray) -> bool
    requires { OrderAlong order.now.objective order.now.tie d }
    ensures { result ≡ above (gain_order order.now.objective order.now.tie) d }
{
    let f = order.objective;
    if gains(Gaining { f, d }) {
        return true;
    }
    if loses(Gaining { f, d }) {
        return false;
    }
    tie_upward(order.tie, d)
}
