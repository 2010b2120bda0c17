// The header's tests, the causes 1 to 5, and the floors that its tail says. What depends on the version is a `match` of constants in each
// function, so that a division by a constant compiles to a product.
ghost use Rattle.std.specs.Prelude.{◌≡◌, length, eqb, ltb, not, ◌||◌};
ghost use Rattle.records.specs.Layout.{layout_of};
ghost use Rattle.records.specs.Header.{floors_in, tail_set, bad_length};
ghost use Rattle.headings.specs.Tests.{other_version, other_count, least_objective, cause_in};

use answers::Cause;
use lp::Floors;
use records::fields::Fields;
use records::{Book, Version};
use signed::{least, signed16};

// Whether a length is under the shortest, over the longest, or leaves a rest.
fn misfit(length: usize, shortest: usize, longest: usize, rest: usize) -> bool
    ensures { result ≡ (ltb length shortest || ltb longest length || not (eqb rest 0)) }
{
    length < shortest || longest < length || rest != 0
}

// Cause 1.
fn bad_length(book: &Book) -> bool
    ensures { result ≡ bad_length book.now.layout book.now.bytes }
{
    let length = book.bytes.len();
    match book.version {
        Version::One => misfit(length, 12, 3072, length % 12),
        Version::Two => misfit(length, 14, 57344, length % 14),
    }
}

// Cause 2: the version's number does not stand in the place of a kind, or the padding is not zero.
fn other_version(book: &Book, f: Fields) -> bool
    ensures { result ≡ other_version book.now.layout f }
{
    let number = match book.version {
        Version::One => 1,
        Version::Two => 2,
    };
    f.kind != number || f.pad != 0
}

// Cause 3: the count is not that of the records after the header.
fn other_count(book: &Book, f: Fields) -> bool
    ensures { result ≡ other_count book.now.layout book.now.bytes f }
{
    let length = book.bytes.len();
    let records = match book.version {
        Version::One => length / 12,
        Version::Two => length / 14,
    };
    f.label as usize != records.saturating_sub(1)
}

// Cause 4.
fn least_objective(f: Fields) -> bool
    ensures { result ≡ least_objective f }
{
    least(signed16(f.a)) || least(signed16(f.b))
}

// Cause 5: version 1 has nothing to say in the tail.
fn bad_tail(book: &Book, tail: u32) -> bool
    ensures { result ≡ tail_set book.now.layout tail }
{
    match book.version {
        Version::One => tail != 0,
        Version::Two => false,
    }
}

// The floors in a tail, x in the half that counts least; zero in version 1.
pub fn floors_in(version: Version, tail: u32) -> Floors
    ensures { result ≡ floors_in (layout_of version) tail }
{
    let lx = i64::from(signed16((tail % 65536) as u16));
    let ly = i64::from(signed16((tail / 65536) as u16));
    let floors = Floors { lx, ly };
    let zero = Floors { lx: 0, ly: 0 };
    match version {
        Version::One => zero,
        Version::Two => floors,
    }
}

// The first of the causes 1 to 5 that applies to a book with these fields in its header, if one does. Each test is a line of its own, in
// the order of the format's table.
pub fn cause_in(book: &Book, f: Fields) -> Option<Cause>
    ensures { result ≡ cause_in book.now.layout book.now.bytes f }
{
    if bad_length(book) {
        return Some(Cause::Length);
    }
    if other_version(book, f) {
        return Some(Cause::Version);
    }
    if other_count(book, f) {
        return Some(Cause::Count);
    }
    if least_objective(f) {
        return Some(Cause::Objective);
    }
    if bad_tail(book, f.c) {
        return Some(Cause::Tail);
    }
    None
}
