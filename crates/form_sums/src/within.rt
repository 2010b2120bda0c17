// Forms within the limit: sums and differences of their numbers stay within 64 bits.
ghost use Rattle.std.specs.Prelude.{◌≡◌, ◌+ℤ◌, ◌-ℤ◌};
ghost use Rattle.forms.specs.Value.{add_forms, sub_forms, final, written};
ghost use Rattle.forms.specs.Small.{SmallForms, SmallPair};

use forms::operands::bounded;
use forms::{Flaw, Form, Written};

fn add(y: i64, z: i64) -> i64
    requires { SmallPair y z }
    ensures { result ≡ y +ℤ z }
{
    y + z
}

fn sub(y: i64, z: i64) -> i64
    requires { SmallPair y z }
    ensures { result ≡ y -ℤ z }
{
    y - z
}

pub fn add_forms(f: Form, g: Form) -> Form
    requires { SmallForms f g }
    ensures { result ≡ add_forms f g }
{
    Form {
        a: add(f.a, g.a),
        b: add(f.b, g.b),
        c: add(f.c, g.c),
    }
}

pub fn sub_forms(f: Form, g: Form) -> Form
    requires { SmallForms f g }
    ensures { result ≡ sub_forms f g }
{
    Form {
        a: sub(f.a, g.a),
        b: sub(f.b, g.b),
        c: sub(f.c, g.c),
    }
}

// The rule of two sides: the final a, b and c are within their limits, else the flaw of their size.
pub fn finished<K: Copy>(sense: K, f: Form, g: Form) -> Result<Written<K>, Flaw>
    requires { SmallForms f g }
    ensures { result ≡ final (written sense f g) }
{
    let over = sub_forms(f, g);
    let under = sub_forms(g, f);
    if bounded(
        Form {
            a: over.a,
            b: over.b,
            c: under.c,
        },
        32767,
        1000000000,
    ) {
        Ok(Written {
            sense,
            a: over.a,
            b: over.b,
            c: under.c,
        })
    } else {
        Err(Flaw::Size)
    }
}
