// The entries of a witness, each with its weight, on a line that has room for them.
ghost use Rattle.std.specs.Prelude.{◌≡◌, length};
ghost use Rattle.text.specs.Line.{RoomIn, Added};
ghost use Rattle.lp.specs.Certificate.{weighted, named};
ghost use Rattle.report.specs.Line.{rule_of_two, rule, entry, entries, witness};

use lp::Certificate;
use numerals::{append_decimal, append_integer, append_number};
use report::Naming;
use text::{Line, append_word};

// A rule of two books: its book's letter and its record's index.
fn append_rule_of_two(name: usize, line: &mut Line)
    requires { RoomIn line.old 22 }
    ensures { Added line.old (rule_of_two name) 22 line.new }
{
    if name < 4096 {
        append_word(b" S", line);
        append_decimal(name, line);
    } else {
        append_word(b" T", line);
        append_decimal(name - 4096, line);
    }
}

// A rule by its name.
fn append_rule(naming: Naming, name: usize, line: &mut Line)
    requires { RoomIn line.old 22 }
    ensures { Added line.old (rule naming name) 22 line.new }
{
    match naming {
        Naming::OneBook => append_number(name, line),
        Naming::TwoBooks => append_rule_of_two(name, line),
    }
}

// An entry of a witness: a floor's letter or a rule.
fn append_entry(naming: Naming, code: usize, line: &mut Line)
    requires { RoomIn line.old 22 }
    ensures { Added line.old (entry naming code) 22 line.new }
{
    match code {
        0 => append_word(b" X", line),
        1 => append_word(b" Y", line),
        _ => append_rule(naming, code - 1, line),
    }
}

// An entry and its weight, unless the weight is 0.
fn append_weighted(naming: Naming, code: usize, weight: i64, line: &mut Line)
    requires { RoomIn line.old 43 }
    ensures { Added line.old (entries naming (weighted code weight)) 43 line.new }
{
    if weight != 0 {
        append_entry(naming, code, line);
        append_integer(weight, line);
    }
}

// 1 for a weight that is not 0.
fn used(weight: i64) -> usize
    ensures { result ≡ length (weighted 0 weight) }
{
    if weight == 0 { 0 } else { 1 }
}

// How many entries a witness names.
fn count_named(k: Certificate) -> usize
    ensures { result ≡ length (named k) }
{
    used(k.first_weight) + used(k.second_weight) + used(k.third_weight)
}

// A witness: the number of entries, then each with its weight.
pub fn append_witness(naming: Naming, k: Certificate, line: &mut Line)
    requires { RoomIn line.old 150 }
    ensures { Added line.old (witness naming k) 150 line.new }
{
    append_number(count_named(k), line);
    append_weighted(naming, k.first, k.first_weight, line);
    append_weighted(naming, k.second, k.second_weight, line);
    append_weighted(naming, k.third, k.third_weight, line);
}
