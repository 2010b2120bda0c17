// The integers: definitions in specs/, laws in proofs/, and the function of machine integers that other crates share.

#![tactic(auto)]

ghost use Rattle.std.specs.Prelude.{◌≡◌, nat_abs};

// |z|, which every i64 has: the least one's is 2^63.
pub fn magnitude(z: i64) -> u64
    ensures { result ≡ nat_abs z }
{
    z.unsigned_abs()
}
