// The plan of the rules that a session holds.
ghost use Rattle.std.specs.Prelude.{◌≡◌, ◌+◌};
ghost use Rattle.engine.specs.Entries.{put_entry};
ghost use Rattle.sessions.specs.Sessions.{IsSession, Shown};
ghost use Rattle.sessions.specs.Laying.{positions, EntryRoom, laid_from, LaysRules};

use answers::Plan;
use lp::Constraint;
use rules::constraint;
use sessions::Session;

// The names of 64 rules: their places from 1 up.
fn places() -> [u16; 64]
    ensures { result ≡ positions 64 }
{
    let mut names = [0u16; 64];
    for (i, name) in names.iter_mut().enumerate() {
        *name = i as u16 + 1;
    }
    names
}

// A rule as it is planned, behind k others.
fn put(run: &mut [i64], k: usize, r: Constraint)
    requires { EntryRoom run.old k }
    ensures { run.new ≡ put_entry run.old (k + 2) r }
{
    let at = 3 * (k + 2);
    run[at] = r.a;
    run[at + 1] = r.b;
    run[at + 2] = r.c;
}

// The rules held, as they are planned, behind the floors' room.
fn lay(session: Session, run: &mut [i64])
    requires { LaysRules session run.old }
    ensures { run.new ≡ laid_from run.old session.rules session.n }
{
    let rules = session.rules;
    for (i, rule) in rules[..session.n].iter().enumerate() {
        put(&mut *run, i, constraint(*rule));
    }
}

// The numbers of a session are all in range, so that the engine plans its rules.
pub fn plan_held(session: Session) -> Plan
    requires { IsSession session }
    ensures { Shown session result }
{
    let mut entries = [0i64; 198];
    lay(session, &mut entries);
    let names = places();
    let solution = engine::solve(session.terms, &mut entries, session.n).unwrap();
    plans::plan_of(solution, &names)
}
