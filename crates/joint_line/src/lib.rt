// The line that shows the answer to two books joined. It is the plan's line (crate `report`), in which a witness names a book with each
// record, or a refusal that names the book that is turned back.

#![tactic(auto)]

mod line;

ghost use Rattle.text.specs.Append.{Fills};
ghost use Rattle.joint_line.specs.JointLine.{refused_line, JointWritten};
ghost use Rattle.joint_line.specs.OfBooks.{JointLine};

use answer_line::write_line_of;
use answers::{Plan, Refusal};
use joining::JointRefusal;
use line::append_turned;
use report::Naming;
use text::{Line, append_word};

// The line of a book that is turned back.
fn refused_line(tenant: bool, refusal: Refusal, out: &mut [u8]) -> usize
    ensures { Fills (refused_line tenant refusal) 256 out.old out.new result }
{
    if out.len() < 256 {
        return 0;
    }
    let mut line = Line { out, at: 0 };
    append_turned(tenant, refusal, &mut line);
    append_word(b"\n", &mut line);
    line.at
}

// The line of an answer, at the start of a buffer of at least 256 bytes, and its length. A smaller buffer is left as it is, and 0 handed
// back.
pub fn write_joint_line(answer: Result<Plan, JointRefusal>, out: &mut [u8]) -> usize
    ensures { JointWritten answer out.old out.new result }
{
    match answer {
        Err(JointRefusal::Site(refusal)) => refused_line(false, refusal, out),
        Err(JointRefusal::Tenant(refusal)) => refused_line(true, refusal, out),
        Ok(plan) => write_line_of(Naming::TwoBooks, Ok(plan), out),
    }
}

// The line of a site's and a tenant's book, in the same way.
pub fn line_of_books(site: &[u8], tenant: &[u8], out: &mut [u8]) -> usize
    ensures { JointLine site.now tenant.now out.old out.new result }
{
    write_joint_line(joining::join(site, tenant), out)
}
