// One run of the planner over a book: it is read once into two lent runs, the chain's records and its rules, and the rules of a prefix
// are planned. It is total: the runs may be of any length, and where they are too short for a book, nothing of it is planned.

#![tactic(auto)]

ghost use Rattle.std.specs.Prelude.{◌≡◌};
ghost use Rattle.running.specs.Running.{no_solution, Ran};

use answers::Refusal;
use engine::Solution;
use lp::{Certificate, Outcome};
use records::Book;

// What a run finds of a book that is not refused: how many rules the chain has, and what those of the prefix come to.
#[derive(Clone, Copy)]
pub struct Findings {
    pub n: usize,
    pub solution: Solution,
}

// What stands where there is nothing to plan.
fn no_solution() -> Solution
    ensures { result ≡ no_solution }
{
    Solution {
        outcome: Outcome::Infeasible,
        moves: 0,
        opened: 0,
        place: 0,
        certificate: Certificate {
            first: 0,
            first_weight: 0,
            second: 0,
            second_weight: 0,
            third: 0,
            third_weight: 0,
        },
        start: None,
        restarts: 0,
    }
}

// The run over a book's first `prefix` rules: the whole chain, if there are fewer; or the book's refusal. The rules go into the run of
// entries after six numbers for the floors, as far as there is room. An accepted book's numbers are all in range, so that the engine plans
// it if all have room.
pub fn run(
    book: &Book,
    prefix: usize,
    records: &mut [u16],
    entries: &mut [i64],
) -> Result<Findings, Refusal>
    ensures { Ran book.now.layout book.now.bytes prefix records.old entries.old
        result records.new entries.new }
{
    let floors = entries.len().min(6);
    let head = reading::read(book, records, &mut entries[floors..])?;
    let n = head.n;
    let solved = engine::solve(head.terms, entries, prefix.min(n));
    Ok(Findings {
        n,
        solution: solved.unwrap_or(no_solution()),
    })
}
