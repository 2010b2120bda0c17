// What a controller loads of two books joined: one line for a site's and a tenant's book.
ghost use Rattle.joint_line.specs.OfBooks.{JointLine};

// The line of a site's and a tenant's book, both of version 2: written at the start of a buffer of at least 256 bytes, with its length. A
// smaller buffer is left as it is, and 0 handed back.
pub fn vishalneq_joint(site: &[u8], tenant: &[u8], out: &mut [u8]) -> usize
    ensures { JointLine site.now tenant.now out.old out.new result }
{
    joint_line::line_of_books(site, tenant, out)
}
