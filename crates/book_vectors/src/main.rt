// Runs stored books from standard input, and writes a line for what each reads as and a line for what its repacking does.
// A case is a name after its length, the version of the book, the book after its length, and then the length of the output: two bytes for a
// number, low byte first.

#![tactic(auto)]

ghost use Rattle.std.specs.Prelude.{◌≡◌, ◌<◌, ◌^◌, length, IfOk};

use answers::Refusal;
use records::{Book, Version};
use std::io;

// What the output holds before it is filled.
const BEFORE: u8 = 0xA5;

fn number(rt: &HostRuntime, n: u64) -> io::Result<()> {
    print!(rt; " {n}")
}

// A number of a book, with its sign.
fn signed(rt: &HostRuntime, z: i64) -> io::Result<()> {
    if z < -4294967296 {
        return rt.write_all(b" below");
    }
    print!(rt; " {z}")
}

fn wide(x: u8) -> usize
    ensures { result < 256 }
{
    x as usize
}

// The length that stands at an index, or 0 past the end.
fn length_at(s: &[u8], at: usize) -> usize
    requires { at < 2 ^ 32 }
    ensures { result < 65536 }
{
    if at + 1 < s.len() {
        wide(s[at]) + 256 * wide(s[at + 1])
    } else {
        0
    }
}

// A part of the input, or nothing where the input is too short.
fn part(s: &[u8], from: usize, len: usize) -> &[u8]
    requires { (from < 2 ^ 32) × (len < 65536) }
{
    if from + len <= s.len() {
        let end = from + len;
        &s[from..end]
    } else {
        &s[..0]
    }
}

// A rule of the chain: its record, kind, a, b, c and label, and then a, b, c as they are planned.
fn print_rule(rt: &HostRuntime, book: &Book, index: u16) -> io::Result<()> {
    let rule = decoding::rule_at(book, index);
    let planned = rules::constraint(rule);
    rt.write_all(b" |")?;
    number(rt, index as u64)?;
    number(rt, rule.kind as u64)?;
    signed(rt, rule.a as i64)?;
    signed(rt, rule.b as i64)?;
    signed(rt, rule.c as i64)?;
    number(rt, rule.label as u64)?;
    rt.write_all(b" as")?;
    signed(rt, planned.a)?;
    signed(rt, planned.b)?;
    signed(rt, planned.c)
}

// The first n rules of the chain.
fn print_rules(rt: &HostRuntime, book: &Book, indices: &[u16], n: usize) -> io::Result<()> {
    for index in indices.iter().take(n) {
        print_rule(rt, book, *index)?;
    }
    Ok(())
}

// The two numbers of a refusal.
fn print_refusal(rt: &HostRuntime, refusal: Refusal) -> io::Result<()> {
    number(rt, refusal.number as u64)?;
    number(rt, refusal.at as u64)
}

// What a book reads as; of a longer chain the first 255 rules.
fn print_reading(rt: &HostRuntime, book: &Book) -> io::Result<()> {
    let mut indices = [0u16; 255];
    let mut rules = [0i64; 765];
    match reading::read(book, &mut indices, &mut rules) {
        Ok(head) => {
            rt.write_all(b" accepted")?;
            signed(rt, head.terms.objective.p)?;
            signed(rt, head.terms.objective.q)?;
            number(rt, head.n as u64)?;
            print_rules(rt, book, &indices, head.n)
        }
        Err(refusal) => {
            rt.write_all(b" refused")?;
            print_refusal(rt, refusal)
        }
    }
}

// Bytes in hexadecimal.
fn print_bytes(rt: &HostRuntime, s: &[u8]) -> io::Result<()> {
    for byte in s {
        print!(rt; "{byte:02x}")?;
    }
    Ok(())
}

// How many bytes from an index on are not as they were before.
fn changed(out: &[u8], from: usize) -> usize {
    out.iter()
        .skip(from)
        .filter(|byte| **byte != BEFORE)
        .count()
}

// What repacking a book does to an output.
fn print_repacking(rt: &HostRuntime, book: &Book, out: &mut [u8]) -> io::Result<()> {
    let filled = match repacker::repack(book, &mut *out) {
        Ok(filled) => {
            rt.write_all(b" 0 0")?;
            filled
        }
        Err(refusal) => {
            print_refusal(rt, refusal)?;
            0
        }
    };
    number(rt, filled as u64)?;
    rt.write_all(b" ")?;
    if filled <= out.len() {
        print_bytes(rt, &out[..filled])?;
        rt.write_all(b" changed")?;
        number(rt, changed(&*out, filled) as u64)?;
    }
    Ok(())
}

// An output before it is filled.
fn fresh() -> [u8; 4096]
    ensures { 4096 ≡ length result }
{
    [BEFORE; 4096]
}

// The version that a case names.
fn version_of(number: usize) -> Version {
    if number == 2 {
        Version::Two
    } else {
        Version::One
    }
}

// A case from an index on, and the index after it.
fn run(rt: &HostRuntime, input: &[u8], at: usize) -> io::Result<usize>
    requires { at < 2 ^ 16 }
    ensures { IfOk result (λ next. at < next) }
{
    let name_length = length_at(input, at);
    let name = part(input, at + 2, name_length);
    let version_at = at + 2 + name_length;
    let version = version_of(length_at(input, version_at));
    let book_at = version_at + 2;
    let book_length = length_at(input, book_at);
    let bytes = part(input, book_at + 2, book_length);
    let book = Book { version, bytes };
    let room_at = book_at + 2 + book_length;
    let room = length_at(input, room_at);
    rt.write_all(name)?;
    print_reading(rt, &book)?;
    rt.write_all(b"\n  packed")?;
    let mut out = fresh();
    if room <= 4096 {
        print_repacking(rt, &book, &mut out[..room])?;
    }
    rt.write_all(b"\n")?;
    Ok(room_at + 2)
}

fn main(rt: HostRuntime) -> io::Result<()> {
    let mut input = [0u8; 65536];
    let n = streams::read_full(&mut rt.stdin(), &mut input)?;
    let mut at: usize = 0;
    // Each case says itself how long its parts are, so no iterator could split the input.
    while at < n {
        at = run(&rt, &input[..n], at)?;
    }
    Ok(())
}
