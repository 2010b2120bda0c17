// The records of a repacked book, as bytes of version 2: the header and a rule of a book of either version, with another link.

#![tactic(auto)]

ghost use Rattle.std.specs.Prelude.{◌≡◌, cond};
ghost use Rattle.records.specs.Layout.{v2, layout_of};
ghost use Rattle.records.specs.Record.{record_at, rule_of};
ghost use Rattle.records.specs.Header.{terms_of};
ghost use Rattle.packing.specs.Bytes.{record_bytes, header_bytes, rule_bytes};

use records::{Book, Version};

// A record's bytes, from its fields.
fn record_bytes(link: u16, kind: u8, a: u16, b: u16, label: u16, c: u32) -> [u8; 14]
    ensures { result ≡ record_bytes v2 link kind a b label c }
{
    let link = link.to_le_bytes();
    let a = a.to_le_bytes();
    let b = b.to_le_bytes();
    let label = label.to_le_bytes();
    let c = c.to_le_bytes();
    [
        link[0], link[1], kind, 0, a[0], a[1], b[0], b[1], label[0], label[1], c[0], c[1], c[2],
        c[3],
    ]
}

// The header's tail, as it is written: version 2's holds the floors, and version 1's floors are zero.
fn tail_of(version: Version, tail: u32) -> u32
    ensures { result ≡ cond (layout_of version).floors tail 0 }
{
    match version {
        Version::One => 0,
        Version::Two => tail,
    }
}

// The header of n rules, with the objective and the floors of a book of either version.
pub fn header_bytes(book: &Book, link: u16, n: u16) -> [u8; 14]
    ensures { result ≡ header_bytes v2 link (terms_of book.now.layout book.now.bytes) n }
{
    let f = book.fields_at(0);
    record_bytes(link, 2, f.a, f.b, n, tail_of(book.version, f.c))
}

// The rule of a record, with another link.
pub fn rule_bytes(book: &Book, index: u16, link: u16) -> [u8; 14]
    ensures { result ≡ rule_bytes v2 link (rule_of book.now.layout (record_at book.now.layout book.now.bytes index)) }
{
    let f = book.fields_at(index);
    record_bytes(link, f.kind, f.a, f.b, f.label, f.c)
}
