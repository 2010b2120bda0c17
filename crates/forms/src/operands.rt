// The operands of an operation: forms within the limit, or the flaw that comes first.
ghost use Rattle.std.specs.Prelude.{◌≡◌};
ghost use Rattle.forms.specs.Value.{inside as inside_of, bounded as bounded_of, limited as limited_of, held as held_of};
ghost use Rattle.forms.specs.Small.{Paired, Valued};

use crate::{Flaw, Form, Value};

fn inside(n: usize, z: i64) -> bool
    ensures { result ≡ inside_of n z }
{
    ints::magnitude(z) as usize <= n
}

// Whether a form's coefficients are at most n either way, and its constant at most m.
pub fn bounded(f: Form, n: usize, m: usize) -> bool
    ensures { result ≡ bounded_of n m f }
{
    inside(n, f.a) && (inside(n, f.b) && inside(m, f.c))
}

// A form whose numbers are within the limit, else the flaw of their size.
pub fn limited(f: Form) -> Value
    ensures { Valued (limited_of f) result }
{
    if bounded(f, 1000000000, 1000000000) {
        Ok(f)
    } else {
        Err(Flaw::Size)
    }
}

// An operand, whose form has to be within the limit.
pub fn held(v: Value) -> Value
    ensures { Valued (held_of v) result }
{
    limited(v?)
}

// The forms of two operands, or the flaw that goes through before the operation's own: the left one's first, then the right one's.
pub fn paired(v: Value, w: Value) -> Result<(Form, Form), Flaw>
    ensures { Paired (held_of v) (held_of w) result }
{
    Ok((held(v)?, held(w)?))
}
