// The session program, for use during a call: one step a line on standard input, the answer after each. `start P Q LX LY` begins anew under
// an objective and floors; `add LABEL RULE` adds a rule that is typed as text; `rule KIND A B C LABEL` adds one by its numbers; `back`
// withdraws the latest. A line that is none of these says so and changes nothing. Empty input ends the program; since every program ends,
// so do a million million lines.

#![tactic(auto)]

mod input;

ghost use Rattle.std.specs.Prelude.{IfOk};
ghost use Rattle.sessions.specs.Sessions.{IsSession};

use answers::{Answer, Refusal, said};
use input::{Line, read_line};
use session_lines::Asked;
use sessions::{Session, Step};
use std::io;

// How many lines are read at most.
const LINES: u64 = 1000000000000;

// What is said of a line: an answer, or that it is no step. Of the input's end nothing is said. Three states in one enum are plainer than
// an Option in an Option.
#[derive(Clone, Copy)]
enum Reply {
    Answered(Answer),
    NoStep,
    Ended,
}

// The session after a line, and what is said of the line.
#[derive(Drop)]
struct Turn {
    session: Session,
    reply: Reply,
}

// Prints the line of an answer.
fn say(rt: &HostRuntime, answer: Answer) -> io::Result<()> {
    let mut line = [0u8; 256];
    let end = answer_line::write_line(answer, &mut line);
    rt.write_all(&line[..end])
}

fn say_no_step(rt: &HostRuntime) -> io::Result<()> {
    rt.write_all(b"no step: start P Q LX LY, add LABEL RULE, rule KIND A B C LABEL, or back\n")
}

// Prints what is said of a line.
fn print_reply(rt: &HostRuntime, reply: Reply) -> io::Result<()> {
    match reply {
        Reply::Answered(answer) => say(rt, answer),
        Reply::NoStep => say_no_step(rt),
        Reply::Ended => Ok(()),
    }
}

// The answer of a step, and its session.
fn done(step: Step) -> Turn
    requires { IsSession step.session }
    ensures { IsSession result.session }
{
    Turn {
        session: step.session,
        reply: Reply::Answered(said(step.refusal, step.plan)),
    }
}

// A line that is no step changes nothing.
fn unchanged(session: Session) -> Turn
    requires { IsSession session }
    ensures { IsSession result.session }
{
    Turn {
        session,
        reply: Reply::NoStep,
    }
}

// Nor does a text that is no rule.
fn turned_back(session: Session, refusal: Refusal) -> Turn
    requires { IsSession session }
    ensures { IsSession result.session }
{
    Turn {
        session,
        reply: Reply::Answered(Err(refusal)),
    }
}

// The step that a line asks for.
fn stepped(session: Session, text: &[u8]) -> Turn
    requires { IsSession session }
    ensures { IsSession result.session }
{
    match session_lines::read_line(text) {
        None => unchanged(session),
        Some(Asked::Begin(b)) => done(steps::start(b.p, b.q, b.lx, b.ly)),
        Some(Asked::Add(rule)) => done(steps::add(session, rule)),
        Some(Asked::Turn(refusal)) => turned_back(session, refusal),
        Some(Asked::Back) => done(steps::withdraw(session)),
    }
}

// Reads a line and takes its step.
fn taken(rt: &HostRuntime, session: Session) -> io::Result<Turn>
    requires { IsSession session }
    ensures { IfOk result (λ turn. IsSession turn.session) }
{
    let mut line = [0u8; 200];
    match read_line(rt, &mut line)? {
        Line::Ended => Ok(Turn {
            session,
            reply: Reply::Ended,
        }),
        Line::Long => Ok(unchanged(session)),
        Line::Text(n) => Ok(stepped(session, &line[..n])),
    }
}

// A step a line, until the input ends.
fn run(rt: &HostRuntime, session: Session) -> io::Result<()>
    requires { IsSession session }
{
    let mut held = session;
    for _ in 0..LINES {
        let next = taken(rt, held)?;
        held = next.session;
        print_reply(rt, next.reply)?;
        if matches!(next.reply, Reply::Ended) {
            break;
        }
    }
    Ok(())
}

fn main(rt: HostRuntime) -> io::Result<()> {
    let first = steps::start(0, 0, 0, 0);
    run(&rt, first.session)
}
