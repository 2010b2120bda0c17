// The line of a batch's answer, from its 32 bytes: `best X Y D`, `unlimited X Y D` or `impossible`. It rests on the parts of a line (crate
// `text`). A byte that is not there reads as zero.

#![tactic(auto)]

ghost use Rattle.std.specs.Prelude.{◌≡◌, ◌+◌, ◌≤◌, length, get_or};
ghost use Rattle.records.specs.Number.{Copied};
ghost use Rattle.text.specs.Line.{RoomIn, Added, Adds};
ghost use Rattle.batch_line.specs.Line.{cell_in, point_in, corner_in, pair_line, answer_line};

use lp::Point;
use pairs::append_pair;
use text::{Line, append_word};

// The byte at an index, or zero where there is none.
fn byte_at(s: &[u8], at: usize) -> u8
    ensures { result ≡ get_or s.now at 0 }
{
    s.get(at).copied().unwrap_or(0)
}

// Eight bytes from a place on, with zeros for those that are not there. Crate `records` copies its records by a function like this, and
// each crate has its own, since a public function may ask for no bound on the place.
fn window(s: &[u8], at: usize) -> [u8; 8]
    requires { at ≤ 24 }
    ensures { Copied s.now at 8 result }
{
    std::array::from_fn(|i| byte_at(s, at + i))
}

// The number in eight bytes from a place on.
fn cell(s: &[u8], at: usize) -> i64
    requires { at ≤ 24 }
    ensures { result ≡ cell_in s.now at }
{
    i64::from_le_bytes(window(s, at))
}

// The corner in 24 bytes: X, Y and D in eight bytes each.
pub fn corner_of(corner: &[u8]) -> Point
    ensures { result ≡ corner_in corner.now }
{
    Point {
        x: cell(corner, 0),
        y: cell(corner, 8),
        d: cell(corner, 16),
    }
}

// The pair of an answer, behind its outcome.
fn pair_of(answer: &[u8]) -> Point
    ensures { result ≡ point_in answer.now }
{
    Point {
        x: cell(answer, 8),
        y: cell(answer, 16),
        d: cell(answer, 24),
    }
}

// A word, a pair and the line feed.
fn append_named(word: &[u8], v: Point, line: &mut Line)
    requires { RoomIn line.old (length word.now + 64) }
    ensures { Added line.old (pair_line word.now v) (length word.now + 64) line.new }
{
    append_word(word, line);
    append_pair(v, line);
    append_word(b"\n", line);
}

// An answer's line, on one that has 80 bytes left; one with fewer is left as it is.
pub fn append_answer(answer: &[u8], line: &mut Line)
    ensures { Adds line.old (answer_line answer.now) 80 line.new }
{
    if line.lacks_room(80) {
        return;
    }
    let v = pair_of(answer);
    match byte_at(answer, 0) {
        1 => append_named(b"best", v, line),
        2 => append_named(b"unlimited", v, line),
        _ => append_word(b"impossible\n", line),
    }
}
