// The state of a session, made anew by each step: blank places, one rule more, one rule less.
ghost use Rattle.std.specs.Prelude.{◌≡◌};
ghost use Rattle.sessions.specs.Sessions.{no_rule, Room, Latest};
ghost use Rattle.sessions.specs.Steps.{start_of, longer_by, shorter_by};

use lp::{Floors, Functional, Terms};
use records::Rule;
use sessions::Session;

// What stands at a place without a rule.
fn no_rule() -> Rule
    ensures { result ≡ no_rule }
{
    Rule {
        kind: 0,
        a: 0,
        b: 0,
        c: 0,
        label: 0,
    }
}

// A session without rules.
pub fn begun(p: i16, q: i16, lx: i16, ly: i16) -> Session
    ensures { result ≡ start_of p q lx ly }
{
    let objective = Functional {
        p: i64::from(p),
        q: i64::from(q),
    };
    let floors = Floors {
        lx: i64::from(lx),
        ly: i64::from(ly),
    };
    let terms = Terms { objective, floors };
    let rules = [no_rule(); 64];
    Session { rules, n: 0, terms }
}

// One rule more.
pub fn longer(session: Session, rule: Rule) -> Session
    requires { Room session }
    ensures { result ≡ longer_by session rule }
{
    let mut rules = session.rules;
    rules[session.n] = rule;
    Session {
        rules,
        n: session.n + 1,
        ..session
    }
}

// One rule less: its place is blank again.
pub fn shorter(session: Session) -> Session
    requires { Latest session }
    ensures { result ≡ shorter_by session }
{
    let mut rules = session.rules;
    let n = session.n - 1;
    rules[n] = no_rule();
    Session {
        rules,
        n,
        ..session
    }
}
