// Signed numbers of a book's fields: two's complement of sixteen and of thirty-two bits, and the one number of sixteen bits that is against
// the format. The two readings are the library's `cast_signed` at two types, a line each; a generic function would be longer than both.

#![tactic(auto)]

ghost use Rattle.std.specs.Prelude.{◌≡◌, negsuc};
ghost use Rattle.std.specs.Int.Signed.{lt_z};
ghost use Rattle.std.specs.Int.{w16, w32};
ghost use Rattle.std.proofs.Common.{to_z};

// Sixteen bits as a signed number in two's complement.
pub fn signed16(bits: u16) -> i16
    ensures { result ≡ to_z w16 bits }
{
    u16::cast_signed(bits)
}

// Thirty-two bits as a signed number in two's complement.
pub fn signed32(bits: u32) -> i32
    ensures { result ≡ to_z w32 bits }
{
    u32::cast_signed(bits)
}

// -32,768, which no number of sixteen bits of a book may be.
pub fn least(x: i16) -> bool
    ensures { result ≡ lt_z x (negsuc 32766) }
{
    x == i16::MIN
}
