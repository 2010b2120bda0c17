// What turns a rule back: 8, 9 and 10 as in a book, and 12 for a label that a rule held has already.
ghost use Rattle.std.specs.Prelude.{◌≡◌, not, ◌||◌};
ghost use Rattle.records.specs.Record.{is_least};
ghost use Rattle.sessions.specs.Sessions.{IsSession, label_held};
ghost use Rattle.sessions.specs.Checking.{AddingChecked};

use answers::Cause;
use causes::decoded;
use records::Rule;
use sessions::Session;
use signed::least;

// Cause 4.
pub fn lawful_objective(p: i16, q: i16) -> bool
    ensures { result ≡ not (is_least p || is_least q) }
{
    !(least(p) || least(q))
}

// Whether a rule held has this label.
fn label_held(session: Session, label: u16) -> bool
    requires { IsSession session }
    ensures { result ≡ label_held session label }
{
    let rules = session.rules;
    rules[..session.n].iter().any(|rule| label == rule.label)
}

// The cause that turns a rule back, if there is one. A rule of a session comes from no record, so that no padding is set and no link
// follows.
pub fn cause_of_adding(session: Session, rule: Rule) -> Option<Cause>
    requires { IsSession session }
    ensures { AddingChecked session rule result }
{
    if let Err(cause) = decoded(true, rule, 0) {
        return Some(cause);
    }
    if label_held(session, rule.label) {
        return Some(Cause::Label);
    }
    None
}
