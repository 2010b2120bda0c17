// The records of a rule book, of either version of the format: a record's fields. A book is its version and any bytes; a byte that is not
// there reads as zero. The definitions of the whole format stand here; what a rule record holds and what turns it back is crate `decoding`,
// what a header says crate `headings`, and what a rule is planned as crate `rules`.

#![tactic(auto)]

mod bytes;
pub mod fields;
mod layouts;

ghost use Rattle.records.specs.Encoded.{Encoded, encoded};
ghost use Rattle.records.specs.Number.{Bytes};

use answers::Cause;
use lp::Terms;
use std::marker::Model;

// The versions of the format: records of 12 bytes, at most 256 of them, and of 14, at most 4,096.
#[derive(Clone, Copy)]
pub enum Version {
    One,
    Two,
}

// A book as it is lent: its version, and its bytes, whatever they are. A clause sees the version's layout and the bytes; a function that
// reads a field learns that each byte is one.
#[derive(Drop)]
pub struct Book<'a> {
    pub version: Version,
    pub bytes: &'a [u8],
}

impl<'a> Model for Book<'a> {
    ghost Value = { Encoded };

    ghost view = { λ b. encoded b.version b.bytes.now };

    ghost invariant = { λ b. Bytes b.bytes.now };
}

// A rule as its record has it, kind 2 not turned round. The kind is a byte and no enum, since a record can hold any.
#[derive(Clone, Copy)]
pub struct Rule {
    pub kind: u8,
    pub a: i16,
    pub b: i16,
    pub c: i32,
    pub label: u16,
}

// What a sound rule record comes to: its rule, and its link to the next record.
#[derive(Clone, Copy)]
pub struct Sound {
    pub rule: Rule,
    pub next: u16,
}

// What a header says: the terms, its count of the records after it, and its link to the chain.
#[derive(Clone, Copy)]
pub struct Heading {
    pub terms: Terms,
    pub count: u16,
    pub link: u16,
}

// What turns a header back, the first of the causes 1 to 5 that applies, and what its fields say all the same.
#[derive(Clone, Copy)]
pub struct BadHeading {
    pub cause: Cause,
    pub heading: Heading,
}
