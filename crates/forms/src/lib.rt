// Values of parts of a typed text: forms a·x + b·y + c whose numbers are at most 1,000,000,000 either way, or the text's flaw. A number's
// value, and the operands of an operation. Crates `form_sums` and `form_products` hold the operations, whose definitions stand here. Every
// function that can be called from outside is total: an operand beyond the limit is refused as a number beyond it would be.

#![tactic(auto)]

ghost use Rattle.std.specs.Prelude.{◌≡◌};
ghost use Rattle.forms.specs.Value.{kind_of, numeral as numeral_of, refusal_of};
ghost use Rattle.forms.specs.Small.{Valued};

use answers::{Cause, Refusal};

pub mod operands;

// What a side comes to: a·x + b·y + c.
#[derive(Clone, Copy)]
pub struct Form {
    pub a: i64,
    pub b: i64,
    pub c: i64,
}

// What is wrong with a text: it is none of the language, a product's operands both have a coefficient, or a number is beyond its limit.
// Or it is another flaw, of whatever number its maker gives it: no reader of texts here makes one, and the operations on values hand on
// any flaw as it is.
#[derive(Clone, Copy)]
pub enum Flaw {
    Text,
    Product,
    Size,
    Other(u8),
}

impl Flaw {
    // The refusal, which names record 0.
    pub fn refusal(self) -> Refusal
        ensures { result ≡ refusal_of self }
    {
        let number = match self {
            Flaw::Text => Cause::Text.number(),
            Flaw::Product => Cause::Product.number(),
            Flaw::Size => Cause::Size.number(),
            Flaw::Other(n) => n,
        };
        Refusal { number, at: 0 }
    }
}

// The value of a part of a text: a form, or the flaw of the first number or operation concerned.
pub type Value = Result<Form, Flaw>;

// The relation of a rule: its left side is at most the right one, or at least that.
#[derive(Clone, Copy)]
pub enum Sense {
    AtMost,
    AtLeast,
}

impl Sense {
    // The kind by which document 01 numbers it.
    pub fn number(self) -> u8
        ensures { result ≡ kind_of self }
    {
        match self {
            Sense::AtMost => 1,
            Sense::AtLeast => 2,
        }
    }
}

// A rule as written, one with at-least not turned round. Its relation is a `Sense`, or whatever its maker has in the place of one.
#[derive(Clone, Copy)]
pub struct Written<K> {
    pub sense: K,
    pub a: i64,
    pub b: i64,
    pub c: i64,
}

// What a text reads as: the rule, or its flaw.
pub type Typed = Result<Written<Sense>, Flaw>;

// The value of a number.
pub fn numeral(n: usize) -> Value
    ensures { Valued (numeral_of n) result }
{
    if n <= 1000000000 {
        Ok(Form {
            a: 0,
            b: 0,
            c: n as i64,
        })
    } else {
        Err(Flaw::Size)
    }
}
