// The objectives of a batch (request 109), read from their bytes, and what turns them back: the causes 16 and 11. It takes any bytes.

#![tactic(auto)]

ghost use Rattle.std.specs.Prelude.{◌≡◌, ◌+◌, ◌*◌, ◌≤◌, false, length};
ghost use Rattle.std.specs.Int.{w16};
ghost use Rattle.std.proofs.Common.{to_z};
ghost use Rattle.objectives.specs.Objectives.{half_at, objective_at, objective_in, objectives_of};
ghost use Rattle.objectives.specs.Objectives.{bad_length, is_bad, some_bad, bad_objectives, cause_of};

use answers::Cause;
use lp::Functional;

// The number of two bytes that are there.
fn half(bytes: &[u8], at: usize) -> i64
    requires { at + 2 ≤ length bytes.now }
    ensures { result ≡ to_z w16 (half_at bytes.now at) }
{
    i64::from(i16::from_le_bytes([bytes[at], bytes[at + 1]]))
}

// The objective of four bytes that are there.
fn whole(bytes: &[u8], i: usize) -> Functional
    requires { 4 * i + 4 ≤ length bytes.now }
    ensures { result ≡ objective_at bytes.now i }
{
    Functional {
        p: half(bytes, 4 * i),
        q: half(bytes, 4 * i + 2),
    }
}

// The objective at an index. One that is not there is 0, 0.
pub fn objective(bytes: &[u8], i: usize) -> Functional
    ensures { result ≡ objective_in bytes.now i }
{
    if i < bytes.len() / 4 {
        whole(bytes, i)
    } else {
        Functional { p: 0, q: 0 }
    }
}

// -32,768 is no p and no q.
fn is_bad(f: Functional) -> bool
    ensures { result ≡ is_bad f }
{
    f.p < -32767 || f.q < -32767
}

// 1 to 32 objectives, and no byte more.
fn bad_length(bytes: &[u8]) -> bool
    ensures { result ≡ bad_length bytes.now }
{
    let length = bytes.len();
    length < 4 || 128 < length || length % 4 != 0
}

// Whether one of them is out of its range.
fn some_bad(bytes: &[u8]) -> bool
    ensures { result ≡ some_bad (objectives_of bytes.now) }
{
    for i in 0..bytes.len() / 4 {
        if is_bad(whole(bytes, i)) {
            return true;
        }
    }
    false
}

// Cause 16.
fn bad_objectives(bytes: &[u8]) -> bool
    ensures { result ≡ bad_objectives bytes.now }
{
    bad_length(bytes) || some_bad(bytes)
}

// What turns objectives back, for an output with so many bytes: themselves, and then the room, if anything does.
pub fn cause(objectives: &[u8], room: usize) -> Option<Cause>
    ensures { result ≡ cause_of objectives.now room }
{
    if bad_objectives(objectives) {
        Some(Cause::Objectives)
    } else if room < 8 * objectives.len() {
        Some(Cause::Room)
    } else {
        None
    }
}
