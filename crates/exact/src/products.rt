// Sums and differences of two products.
ghost use Rattle.std.specs.Prelude.{◌≡◌, ◌+ℤ◌, ◌-ℤ◌, ◌*ℤ◌};
ghost use Rattle.exact.specs.Sizes.{Factors, Distance};

// p·q + s·t
pub fn sum(p: i64, q: i64, s: i64, t: i64) -> i64
    requires { Factors p q s t }
    ensures { result ≡ p *ℤ q +ℤ s *ℤ t }
{
    p * q + s * t
}

// p·q − s·t
pub fn difference(p: i64, q: i64, s: i64, t: i64) -> i64
    requires { Factors p q s t }
    ensures { result ≡ p *ℤ q -ℤ s *ℤ t }
{
    p * q - s * t
}

// c·d − (a·x + b·y)
pub fn distance(a: i64, x: i64, b: i64, y: i64, c: i64, d: i64) -> i64
    requires { Distance a x b y c d }
    ensures { result ≡ c *ℤ d -ℤ (a *ℤ x +ℤ b *ℤ y) }
{
    c * d - (a * x + b * y)
}
