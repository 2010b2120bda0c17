// Forms within the limit: products of their numbers stay within 64 bits.
ghost use Rattle.std.specs.Prelude.{◌≡◌, ◌+ℤ◌, ◌*ℤ◌};
ghost use Rattle.forms.specs.Value.{limited as limited_of, mul_forms, multiplied as multiplied_of};
ghost use Rattle.forms.specs.Small.{SmallForms, SmallFour, Valued};

use forms::operands::{bounded, limited};
use forms::{Flaw, Form, Value};

// p·q + s·t
fn cross(p: i64, q: i64, s: i64, t: i64) -> i64
    requires { SmallFour p q s t }
    ensures { result ≡ p *ℤ q +ℤ s *ℤ t }
{
    p * q + s * t
}

// The product of two forms of which one is a constant, within the limit, else the flaw of its size.
fn scaled(f: Form, g: Form) -> Value
    requires { SmallForms f g }
    ensures { Valued (limited_of (mul_forms f g)) result }
{
    limited(Form {
        a: cross(f.a, g.c, f.c, g.a),
        b: cross(f.b, g.c, f.c, g.b),
        c: cross(f.c, g.c, 0, 0),
    })
}

// The product of two forms: a flaw of its own if neither is a constant. A constant's coefficients are 0, and any form here is within the
// limit.
pub fn multiplied(f: Form, g: Form) -> Value
    requires { SmallForms f g }
    ensures { Valued (multiplied_of f g) result }
{
    if bounded(f, 0, 1000000000) || bounded(g, 0, 1000000000) {
        scaled(f, g)
    } else {
        Err(Flaw::Product)
    }
}
