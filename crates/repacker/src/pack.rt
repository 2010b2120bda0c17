// The repacked form: records of version 2, written in chain order.
ghost use Rattle.std.specs.Prelude.{◌≡◌, cond, ◌+◌, ◌*◌, ◌≤◌, length, take, ltb};
ghost use Rattle.std.proofs.Math.Seq.{paste};
ghost use Rattle.records.specs.Layout.{v2};
ghost use Rattle.repacker.specs.Repacking.{chain_bytes, rules_at, OutputRoom};

use packing::rule_bytes;
use records::Book;

// The link of record k, where n records follow the header.
pub fn next_of(k: u16, n: u16) -> u16
    ensures { result ≡ cond (ltb k n) (k + 1) 0 }
{
    if k < n { k + 1 } else { 0 }
}

// A record's bytes into the output, one by one: the compiler makes stores of the fields of them. By `copy_from_slice` the record is put
// together elsewhere first and read back at once in larger pieces, which takes half as long again.
fn store(out: &mut [u8], at: usize, bytes: [u8; 14])
    requires { at + 14 ≤ length out.old }
    ensures { out.new ≡ paste out.old at bytes 14 }
{
    for i in 0..14 {
        out[at + i] = bytes[i];
    }
}

// The rules of the chain, whose records are listed, into the records 1 to n of the output.
pub fn put_rules(book: &Book, out: &mut [u8], indices: &[u16], n: u16)
    requires { OutputRoom n indices.now out.old }
    ensures { out.new ≡ paste out.old 14
        (chain_bytes v2 1 (rules_at book.now.layout book.now.bytes (take n indices.now))) (14 * n) }
{
    for k in 0..n {
        let index = indices[k as usize];
        let place = k + 1;
        let bytes = rule_bytes(book, index, next_of(place, n));
        store(&mut *out, 14 * (place as usize), bytes);
    }
}
