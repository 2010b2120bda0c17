// What a record's fields come to: a rule, and what turns it back (crate `causes`).
ghost use Rattle.std.specs.Prelude.{◌≡◌};
ghost use Rattle.records.specs.Record.{rule_with, decoded_from};

use answers::Cause;
use causes::decoded;
use records::fields::Fields;
use records::{Rule, Sound};
use signed::{signed16, signed32};

// A rule, from its fields as they stand.
pub fn rule_in(f: Fields) -> Rule
    ensures { result ≡ rule_with f.kind f.a f.b f.label f.c }
{
    Rule {
        kind: f.kind,
        a: signed16(f.a),
        b: signed16(f.b),
        c: signed32(f.c),
        label: f.label,
    }
}

// What a record of these fields comes to.
pub fn judged(f: Fields) -> Result<Sound, Cause>
    ensures { result ≡ decoded_from f }
{
    decoded(f.pad == 0, rule_in(f), f.link)
}
