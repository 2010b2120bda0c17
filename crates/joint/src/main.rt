// The joint program: ./joint SITE TENANT. The two files that its arguments name are read as a site's and a tenant's book of version 2, and
// the line of their one plan goes to standard output. It reads one byte more than a book may have, so that a longer file is seen to be too
// long and gets its refusal. A file that is missing or cannot be read gets a line on standard error, and no plan is printed.

#![tactic(auto)]

use files::load;
use std::io;

// The line of two books.
fn show(rt: &HostRuntime, site: &[u8], tenant: &[u8]) -> io::Result<()> {
    let mut line = [0u8; 256];
    let end = joint_line::line_of_books(site, tenant, &mut line);
    rt.write_all(&line[..end])
}

fn main(rt: HostRuntime) -> io::Result<()> {
    let mut site = [0u8; 57345];
    let mut tenant = [0u8; 57345];
    let Some(n) = load(&rt, 1, b"joint SITE TENANT", &mut site) else {
        return Ok(());
    };
    let Some(m) = load(&rt, 2, b"joint SITE TENANT", &mut tenant) else {
        return Ok(());
    };
    show(&rt, &site[..n], &tenant[..m])
}
