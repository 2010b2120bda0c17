// Numbers of a record, read from its bytes.
ghost use Rattle.std.specs.Prelude.{◌≡◌, ◌+◌, ◌<◌, ◌≤◌, ◌^◌, length, get_or, drop};
ghost use Rattle.records.specs.Number.{number, Copied};

// The byte at an index, or zero where there is none.
fn byte_at(s: &[u8], at: usize) -> u8
    ensures { result ≡ get_or s.now at 0 }
{
    s.get(at).copied().unwrap_or(0)
}

// As many bytes as the longest record has, from an index on, with zeros for those that are not there.
pub fn window(s: &[u8], at: usize) -> [u8; 14]
    requires { at < 2 ^ 32 }
    ensures { Copied s.now at 14 result }
{
    std::array::from_fn(|i| byte_at(s, at + i))
}

// The number of two bytes that are there.
pub fn number2(s: &[u8], at: usize) -> u16
    requires { at + 2 ≤ length s.now }
    ensures { result ≡ number 2 (drop at s.now) }
{
    u16::from_le_bytes([s[at], s[at + 1]])
}

// The number of four bytes that are there.
pub fn number4(s: &[u8], at: usize) -> u32
    requires { at + 4 ≤ length s.now }
    ensures { result ≡ number 4 (drop at s.now) }
{
    u32::from_le_bytes([s[at], s[at + 1], s[at + 2], s[at + 3]])
}
