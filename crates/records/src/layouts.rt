// The fields of a record in each version's layout: its offsets are constants in a function of its own. What is made of the fields is one
// body for both.
ghost use Rattle.std.specs.Prelude.{◌≡◌, ◌+◌, ◌≤◌, length, take, drop, true};
ghost use Rattle.records.specs.Layout.{v1, v2};
ghost use Rattle.records.specs.Record.{record_at, fields_of, holds_record};

use crate::bytes::{number2, number4};
use crate::fields::Fields;
use crate::{Book, Version};

// A record of version 1, whose bytes are there.
pub fn fields_one(s: &[u8], at: usize) -> Fields
    requires { at + 12 ≤ length s.now }
    ensures { result ≡ fields_of v1 (take 12 (drop at s.now)) }
{
    Fields {
        link: s[at] as u16,
        kind: s[at + 1],
        pad: 0,
        a: number2(s, at + 2),
        b: number2(s, at + 4),
        label: number2(s, at + 6),
        c: number4(s, at + 8),
    }
}

// A record of version 2, whose bytes are there.
pub fn fields_two(s: &[u8], at: usize) -> Fields
    requires { at + 14 ≤ length s.now }
    ensures { result ≡ fields_of v2 (take 14 (drop at s.now)) }
{
    Fields {
        link: number2(s, at),
        kind: s[at + 2],
        pad: s[at + 3],
        a: number2(s, at + 4),
        b: number2(s, at + 6),
        label: number2(s, at + 8),
        c: number4(s, at + 10),
    }
}

// The fields of a record whose bytes are all there.
pub fn fields_inside(book: &Book, index: u16) -> Fields
    requires { holds_record book.now.layout book.now.bytes index ≡ true }
    ensures { result ≡ fields_of book.now.layout (record_at book.now.layout book.now.bytes index) }
{
    match book.version {
        Version::One => fields_one(book.bytes, index as usize * 12),
        Version::Two => fields_two(book.bytes, index as usize * 14),
    }
}
